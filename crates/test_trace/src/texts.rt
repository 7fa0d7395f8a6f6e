//! The text of traces: what is written of rows, byte by byte.

ghost use Rattle.std.specs.Prelude.{◌<◌, All, IsTrue, length};
ghost use Rattle.cpl_base.specs.Words.{is_name};
ghost use Rattle.cpl_trace.specs.Lines.{IsPlaced, names_at};

use cpl_base::{Many, Text, is_name, words};
use cpl_trace::{TraceNames, TraceRow, trace_text};
use std::alloc::Global;
use std::test::Fail;

/// The names of components.
const COMPONENTS: &[u8] = b"A ocean_of_the_southern_hemisphere";

/// Of their phases.
const PHASES: [&[u8]; 2] = [b"run", b"run a2345678901234567890123456789012"];

/// Of their fields.
const FIELDS: [&[u8]; 2] = [b"x", b"y sea_ice_thickness_of_last_season"];

/// The first line.
const HEAD: &[u8] = b"op,component,phase,field,stamp,sum\n";

/// Rows, each its operation, its component, its phase, its field, its stamp and its sum, and the lines behind the
/// first.
const CASES: [(&[(u64, u8, u8, u16, i64, i128)], &[u8]); 5] = [
    (&[], b""),
    (
        &[
            (3, 0, 0, 0, 1, 1_000_000),
            (6, 0, 0, 0, 2, 2_000_000),
            (9, 0, 0, 0, 3, 3_000_000),
        ],
        b"3,A,run,x,1,1.000000\n6,A,run,x,2,2.000000\n9,A,run,x,3,3.000000\n",
    ),
    // names of 32 bytes
    (
        &[(0, 1, 1, 1, 0, 0)],
        b"0,ocean_of_the_southern_hemisphere,a2345678901234567890123456789012,sea_ice_thickness_of_last_season,0,0.000000\n",
    ),
    // sums and stamps below 0
    (
        &[(1, 0, 0, 0, -1, -1), (1, 1, 0, 0, -60, -1_500_000)],
        b"1,A,run,x,-1,-0.000001\n1,ocean_of_the_southern_hemisphere,run,y,-60,-1.500000\n",
    ),
    // numbers at the ends
    (
        &[
            (u64::MAX, 0, 0, 0, i64::MIN, i128::MIN),
            (u64::MAX, 0, 0, 0, i64::MAX, i128::MAX),
        ],
        b"18446744073709551615,A,run,x,-9223372036854775808,-170141183460469231731687303715884.105728\n18446744073709551615,A,run,x,9223372036854775807,170141183460469231731687303715884.105727\n",
    ),
];

fn texts(alloc: Global, line: &[u8]) -> Result<Many<Text>, Fail> {
    let mut names = Vec::new(alloc);
    for word in words(alloc, line)? {
        names.push(Text::of(alloc, word)?)?;
    }
    Ok(Many::of(names))
}

fn lists(alloc: Global, lines: &[&[u8]]) -> Result<Many<Many<Text>>, Fail> {
    let mut lists = Vec::new(alloc);
    for line in lines {
        lists.push(texts(alloc, *line)?)?;
    }
    Ok(Many::of(lists))
}

/// Whether these are names.
fn are_names(texts: &Many<Text>) -> bool
    ensures { IsTrue result → All (λ name. IsTrue (is_name name)) texts.now }
{
    texts.items().iter().all(|text| is_name(text.bytes()))
}

/// Whether all lists are of names.
fn are_lists(lists: &Many<Many<Text>>) -> bool
    ensures { IsTrue result → All (All (λ name. IsTrue (is_name name))) lists.now }
{
    lists.items().iter().all(|list| are_names(list))
}

/// Whether there is a name at a component's place.
fn is_place(lists: &Many<Many<Text>>, component: u8, place: u16) -> bool
    ensures component { IsTrue result → component < length lists.now }
    ensures place { IsTrue result → place < length (names_at lists.now component) }
{
    match lists.items().get(component as usize) {
        Some(list) => (place as usize) < list.items().len(),
        None => false,
    }
}

/// Whether a row's numbers are places among the names.
fn is_placed(names: &TraceNames, row: &TraceRow) -> bool
    ensures { IsTrue result → IsPlaced names.now row.now }
{
    (row.component as usize) < names.components.items().len()
        && is_place(&names.phases, row.component, u16::from(row.phase))
        && is_place(&names.fields, row.component, row.field)
}

/// The text of rows; nothing where they have no text.
fn text_of(alloc: Global, rows: &[TraceRow], names: &TraceNames) -> Result<Option<Vec<u8>>, Fail> {
    let placed = rows.iter().all(|row| is_placed(names, row));
    if placed
        && are_names(&names.components)
        && are_lists(&names.phases)
        && are_lists(&names.fields)
    {
        Ok(Some(trace_text(alloc, rows, names)?))
    } else {
        Ok(None)
    }
}

#[test]
fn cases(rt: HostRuntime) -> Result<(), Fail> {
    let alloc = rt.alloc();
    let names = TraceNames {
        components: texts(alloc, COMPONENTS)?,
        phases: lists(alloc, &PHASES)?,
        fields: lists(alloc, &FIELDS)?,
    };
    for (place, (shorts, wanted)) in CASES.iter().enumerate() {
        let mut rows = Vec::new(alloc);
        for (op, component, phase, field, stamp, sum) in *shorts {
            rows.push(TraceRow {
                op: *op,
                component: *component,
                phase: *phase,
                field: *field,
                stamp: *stamp,
                sum: *sum,
            })?;
        }
        let text = text_of(alloc, rows.as_slice(), &names)?.ok_or("no text")?;
        let mut all = Vec::from_slice(alloc, HEAD)?;
        all.extend_from_slice(*wanted)?;
        assert_eq!(rt; text.as_slice(), all.as_slice(), "case {place}");
    }
    Ok(())
}
