//! The lines of refusals: all 73 names, and words of every number.

use cpl_base::{Many, Text, words};
use cpl_report::{Refusal, refusal_examples, refusal_text};
use std::alloc::Global;
use std::process::Abort;
use std::test::Fail;

/// The words of a refusal of each number, the first of number 1, and its line.
const CASES: [(&[u8], &[u8]); 73] = [
    (b"model.rc", b"refused 1 TooLong model.rc\n"),
    (b"12", b"refused 2 NotAscii 12\n"),
    (b"12", b"refused 3 BadLine 12\n"),
    (b"12", b"refused 4 StrayClose 12\n"),
    (b"12", b"refused 5 LabelTwice 12\n"),
    (b"12", b"refused 6 Unclosed 12\n"),
    (
        b"EARTH_component_list",
        b"refused 7 MissingLabel EARTH_component_list\n",
    ),
    (b"12", b"refused 8 BadValue 12\n"),
    (b"33", b"refused 9 TooManyComponents 33\n"),
    (b"12", b"refused 10 BadTime 12\n"),
    (b"12", b"refused 11 YearRange 12\n"),
    (b"12", b"refused 12 NoSuchDay 12\n"),
    (b"12", b"refused 13 StopNotAfter 12\n"),
    (b"12", b"refused 14 NameTwice 12\n"),
    (b"12", b"refused 15 NameUnknown 12\n"),
    (b"12", b"refused 16 UnitsDiffer 12\n"),
    (b"12", b"refused 17 PetOutOfRange 12\n"),
    (b"12", b"refused 18 StandardUnknown 12\n"),
    (b"12", b"refused 19 FieldTwice 12\n"),
    (b"ATM 65", b"refused 20 TooManyFields ATM 65\n"),
    (b"12", b"refused 21 PhaseTwice 12\n"),
    (b"MED 33", b"refused 22 TooManyPhases MED 33\n"),
    (b"OCN", b"refused 23 NoGrid OCN\n"),
    (b"12", b"refused 24 TooManyCells 12\n"),
    (b"ATM 12 8", b"refused 25 BlocksMismatch ATM 12 8\n"),
    (b"14 7", b"refused 26 Syntax 14 7\n"),
    (b"14 1", b"refused 27 BadNumber 14 1\n"),
    (b"14 32", b"refused 28 FarNeighbour 14 32\n"),
    (b"12", b"refused 29 DeepFormula 12\n"),
    (b"12", b"refused 30 EntryUnknown 12\n"),
    (b"12", b"refused 31 InputsDiffer 12\n"),
    (b"16777217", b"refused 32 TooManyValues 16777217\n"),
    (b"12", b"refused 33 BadElement 12\n"),
    (b"12", b"refused 34 LoopStray 12\n"),
    (b"12", b"refused 35 OutsideLoop 12\n"),
    (b"12", b"refused 36 LoopTooDeep 12\n"),
    (b"12", b"refused 37 BadStep 12\n"),
    (b"12", b"refused 38 StepUnset 12\n"),
    (b"12", b"refused 39 StepUneven 12\n"),
    (b"12", b"refused 40 ComponentUnknown 12\n"),
    (b"12", b"refused 41 PhaseUnknown 12\n"),
    (b"12", b"refused 42 SubstepUneven 12\n"),
    (b"12", b"refused 43 SelfLink 12\n"),
    (b"12", b"refused 44 MethodUnsupported 12\n"),
    (b"12", b"refused 45 OptionsDiffer 12\n"),
    (b"12", b"refused 46 LoopUnclosed 12\n"),
    (b"12", b"refused 47 DurationMissing 12\n"),
    (b"2700 3600", b"refused 48 SpanMismatch 2700 3600\n"),
    (b"100000000001", b"refused 49 SpanTooLong 100000000001\n"),
    (b"B.x A.x C.z", b"refused 50 Ambiguous B.x A.x C.z\n"),
    (b"B.x", b"refused 51 Unmatched B.x\n"),
    (b"A B", b"refused 52 SizeDiffers A B\n"),
    (b"ATM OCN MED", b"refused 53 Waiting ATM OCN MED\n"),
    (b"w.csv 3", b"refused 54 BadRecord w.csv 3\n"),
    (b"w.csv 1", b"refused 55 IndexRange w.csv 1\n"),
    (b"w.csv 1048576", b"refused 56 WeightRange w.csv 1048576\n"),
    (b"w.csv 2", b"refused 57 PairTwice w.csv 2\n"),
    (
        b"w.csv 1048577",
        b"refused 58 TooManyWeights w.csv 1048577\n",
    ),
    (
        b"18446744073709551615",
        b"refused 59 TooManyOps 18446744073709551615\n",
    ),
    (b"33554433", b"refused 60 TooManyRoutes 33554433\n"),
    (b"262145", b"refused 61 TraceTooLong 262145\n"),
    (b"12", b"refused 62 NotYetBuilt 12\n"),
    (b"A B 17", b"refused 63 UnmappedCell A B 17\n"),
    (b"9", b"refused 64 MigrateTooLong 9\n"),
    (b"1800", b"refused 65 MomentUneven 1800\n"),
    (b"run.state 40", b"refused 66 StateBad run.state 40\n"),
    (b"OCN", b"refused 67 EdgesMissing OCN\n"),
    (b"A B 1048577", b"refused 68 TooManyFactors A B 1048577\n"),
    (b"sst.csv 4", b"refused 69 BadSeries sst.csv 4\n"),
    (b"sst.csv 5", b"refused 70 SeriesOrder sst.csv 5\n"),
    (b"sst.csv", b"refused 71 SeriesEmpty sst.csv\n"),
    (
        b"sst.csv 65537",
        b"refused 72 TooManyRecords sst.csv 65537\n",
    ),
    (b"31", b"refused 73 SeriesTooLarge 31\n"),
];

/// Lines without words, with words that are empty or have bytes of any kind, and with long words: a number, its words
/// between bars, and its line.
const ODD: [(u8, &[&[u8]], &[u8]); 5] = [
    (62, &[], b"refused 62 NotYetBuilt\n"),
    (9, &[], b"refused 9 TooManyComponents\n"),
    (53, &[b""], b"refused 53 Waiting \n"),
    (
        7,
        &[b"", b"a b", b"\n\xff"],
        b"refused 7 MissingLabel  a b \n\xff\n",
    ),
    (
        50,
        &[
            b"ocean_of_the_southern_hemisphere.sea_ice_thickness_of_last_season",
            b"a2345678901234567890123456789012.x",
            b"B.y",
        ],
        b"refused 50 Ambiguous ocean_of_the_southern_hemisphere.sea_ice_thickness_of_last_season a2345678901234567890123456789012.x B.y\n",
    ),
];

/// Texts with the bytes of these words.
fn texts(alloc: Global, words: &[&[u8]]) -> Result<Many<Text>, Fail> {
    let mut texts = Vec::new(alloc);
    for word in words {
        texts.push(Text::of(alloc, *word)?)?;
    }
    Ok(Many::of(texts))
}

/// Compares the line of a refusal with the one that is wanted, and its room with its length.
fn compare(
    rt: &(impl Abort + AllocGlobal),
    number: u8,
    words: &[&[u8]],
    wanted: &[u8],
) -> Result<(), Fail> {
    if number == 0 || number > 73 {
        return Err(Fail::from("no number of a refusal"));
    }
    let refusal = Refusal {
        number,
        words: texts(rt.alloc(), words)?,
    };
    let line = refusal_text(rt.alloc(), &refusal)?;
    assert_eq!(rt; line.as_slice(), wanted, "number {number}");
    assert_eq!(rt;
        line.capacity(),
        wanted.len(),
        "the room of number {number}"
    );
    Ok(())
}

#[test]
fn lines(rt: HostRuntime) -> Result<(), Fail> {
    refusal_examples();
    for (place, (line, wanted)) in CASES.iter().enumerate() {
        let words = words(rt.alloc(), *line)?;
        compare(&rt, place as u8 + 1, words.as_slice(), *wanted)?;
    }
    for (number, words, wanted) in ODD.iter() {
        compare(&rt, *number, *words, *wanted)?;
    }
    Ok(())
}
