//! A file, edits of it, and what comes of each.

ghost use Rattle.std.specs.Prelude.{◌≡◌, ◌≤◌, length, pos};

use crate::edits::{COUPLED, Edit, Edited};
use crate::shown::{answer_over, answer_to_text, book_of};
use crate::{alone, competing};
use cpl_base::Text;
use cpl_entry::{Entry, EntryBook, EntryCall};
use cpl_formula::Formula;
use std::alloc::Global;
use std::process::Abort;
use std::test::Fail;

/// Weights that fit.
const WEIGHTS: &[u8] = b"1,1,0.5\n8,8,-1\n";

/// Where a piece stands in a text: its place, or the text's length.
fn place_of(text: &[u8], piece: &[u8]) -> usize
    ensures { result ≤ length text.now }
{
    for place in 0..text.len() {
        if text[place..].starts_with(piece) {
            return place;
        }
    }
    text.len()
}

/// A text with one piece put in the place of another, which stands in it.
fn replaced(alloc: Global, text: &[u8], edit: &Edit) -> Result<Vec<u8>, Fail> {
    let (old, new) = edit;
    let place = place_of(text, *old);
    let (before, rest) = text.split_at(place);
    let mut out = Vec::from_slice(alloc, before)?;
    out.extend_from_slice(*new)?;
    if let Some(behind) = rest.get(old.len()..) {
        out.extend_from_slice(behind)?;
    }
    Ok(out)
}

/// The file with edits.
pub fn edited(alloc: Global, edits: &[Edit]) -> Result<Vec<u8>, Fail> {
    let mut text = Vec::from_slice(alloc, COUPLED)?;
    for edit in edits {
        text = replaced(alloc, text.as_slice(), edit)?;
    }
    Ok(text)
}

/// Each row has its answer, by the call on a shelf and by that on a text.
fn expect(rt: &impl Abort, alloc: Global, book: &EntryBook, rows: &[Edited]) -> Result<(), Fail> {
    for row in rows {
        let (edits, wanted) = row;
        let text = edited(alloc, *edits)?;
        let found = answer_over(alloc, book, text.as_slice(), WEIGHTS, false)?;
        assert_eq!(rt; found.as_slice(), *wanted, "at {edits:?}");
        let of_text = answer_to_text(alloc, book, text.as_slice(), WEIGHTS)?;
        assert_eq!(rt; of_text.as_slice(), *wanted, "of the text at {edits:?}");
    }
    Ok(())
}

/// The rows of `alone::LINES`.
fn alone_lines(rt: &impl Abort, alloc: Global, book: &EntryBook) -> Result<(), Fail> {
    expect(rt, alloc, book, alone::LINES)
}

/// The rows of `alone::HEADS`.
fn alone_heads(rt: &impl Abort, alloc: Global, book: &EntryBook) -> Result<(), Fail> {
    expect(rt, alloc, book, alone::HEADS)
}

/// The rows of `alone::DICTIONARY`.
fn alone_dictionary(rt: &impl Abort, alloc: Global, book: &EntryBook) -> Result<(), Fail> {
    expect(rt, alloc, book, alone::DICTIONARY)
}

/// The rows of `alone::COMPONENTS`.
fn alone_components(rt: &impl Abort, alloc: Global, book: &EntryBook) -> Result<(), Fail> {
    expect(rt, alloc, book, alone::COMPONENTS)
}

/// The rows of `alone::FORMULAS`.
fn alone_formulas(rt: &impl Abort, alloc: Global, book: &EntryBook) -> Result<(), Fail> {
    expect(rt, alloc, book, alone::FORMULAS)
}

/// The rows of `alone::LOOPS`.
fn alone_loops(rt: &impl Abort, alloc: Global, book: &EntryBook) -> Result<(), Fail> {
    expect(rt, alloc, book, alone::LOOPS)
}

/// The rows of `alone::LINKS`.
fn alone_links(rt: &impl Abort, alloc: Global, book: &EntryBook) -> Result<(), Fail> {
    expect(rt, alloc, book, alone::LINKS)
}

/// The rows of `alone::MATCHES`.
fn alone_matches(rt: &impl Abort, alloc: Global, book: &EntryBook) -> Result<(), Fail> {
    expect(rt, alloc, book, alone::MATCHES)
}

#[test]
fn one_fault(rt: HostRuntime) -> Result<(), Fail> {
    let alloc = rt.alloc();
    // A native entry `size` of one input.
    let call: EntryCall = Box::new(
        alloc,
        |_inputs: &[i64]| -> i64
            ensures { result ≡ pos 0 }
        { 0 },
    )?;
    let entry = Entry::new(Text::of(alloc, b"size")?, 1, Formula::Number(0), call);
    let book = book_of(alloc, entry)?;
    alone_lines(&rt, alloc, &book)?;
    alone_heads(&rt, alloc, &book)?;
    alone_dictionary(&rt, alloc, &book)?;
    alone_components(&rt, alloc, &book)?;
    alone_formulas(&rt, alloc, &book)?;
    alone_loops(&rt, alloc, &book)?;
    alone_links(&rt, alloc, &book)?;
    alone_matches(&rt, alloc, &book)?;
    Ok(())
}

/// The rows of `competing::LINES`.
fn competing_lines(rt: &impl Abort, alloc: Global, book: &EntryBook) -> Result<(), Fail> {
    expect(rt, alloc, book, competing::LINES)
}

/// The rows of `competing::HEADS`.
fn competing_heads(rt: &impl Abort, alloc: Global, book: &EntryBook) -> Result<(), Fail> {
    expect(rt, alloc, book, competing::HEADS)
}

/// The rows of `competing::WORDS`.
fn competing_words(rt: &impl Abort, alloc: Global, book: &EntryBook) -> Result<(), Fail> {
    expect(rt, alloc, book, competing::WORDS)
}

/// The rows of `competing::FIELDS`.
fn competing_fields(rt: &impl Abort, alloc: Global, book: &EntryBook) -> Result<(), Fail> {
    expect(rt, alloc, book, competing::FIELDS)
}

/// The rows of `competing::PHASES`.
fn competing_phases(rt: &impl Abort, alloc: Global, book: &EntryBook) -> Result<(), Fail> {
    expect(rt, alloc, book, competing::PHASES)
}

/// The rows of `competing::RULES`.
fn competing_rules(rt: &impl Abort, alloc: Global, book: &EntryBook) -> Result<(), Fail> {
    expect(rt, alloc, book, competing::RULES)
}

/// The rows of `competing::VALUES`.
fn competing_values(rt: &impl Abort, alloc: Global, book: &EntryBook) -> Result<(), Fail> {
    expect(rt, alloc, book, competing::VALUES)
}

/// The rows of `competing::STEPS`.
fn competing_steps(rt: &impl Abort, alloc: Global, book: &EntryBook) -> Result<(), Fail> {
    expect(rt, alloc, book, competing::STEPS)
}

/// The rows of `competing::SPANS`.
fn competing_spans(rt: &impl Abort, alloc: Global, book: &EntryBook) -> Result<(), Fail> {
    expect(rt, alloc, book, competing::SPANS)
}

/// The rows of `competing::SIZES`.
fn competing_sizes(rt: &impl Abort, alloc: Global, book: &EntryBook) -> Result<(), Fail> {
    expect(rt, alloc, book, competing::SIZES)
}

#[test]
fn first_of_two_faults(rt: HostRuntime) -> Result<(), Fail> {
    let alloc = rt.alloc();
    // A native entry `size` of one input.
    let call: EntryCall = Box::new(
        alloc,
        |_inputs: &[i64]| -> i64
            ensures { result ≡ pos 0 }
        { 0 },
    )?;
    let entry = Entry::new(Text::of(alloc, b"size")?, 1, Formula::Number(0), call);
    let book = book_of(alloc, entry)?;
    competing_lines(&rt, alloc, &book)?;
    competing_heads(&rt, alloc, &book)?;
    competing_words(&rt, alloc, &book)?;
    competing_fields(&rt, alloc, &book)?;
    competing_phases(&rt, alloc, &book)?;
    competing_rules(&rt, alloc, &book)?;
    competing_values(&rt, alloc, &book)?;
    competing_steps(&rt, alloc, &book)?;
    competing_spans(&rt, alloc, &book)?;
    competing_sizes(&rt, alloc, &book)?;
    Ok(())
}

/// Weights, and what is answered to the file with them.
const WEIGHED: &[(&[u8], &[u8])] = &[
    (b"", b"accepted operations 24"),
    (b"1,1,-1000\n1,2,1000\n", b"accepted operations 24"),
    (b"1,1\n", b"refused 54 BadRecord w.csv 1"),
    (b"1,1,0.5\n1,2,x\n", b"refused 54 BadRecord w.csv 2"),
    (b"1,1,0.5\n9,1,1\n", b"refused 55 IndexRange w.csv 2"),
    (b"1,1,0.5\n1,0,1\n", b"refused 55 IndexRange w.csv 2"),
    (b"1,1,1000.000000001\n", b"refused 56 WeightRange w.csv 1"),
    (b"1,1,1\n2,2,1\n1,1,0\n", b"refused 57 PairTwice w.csv 3"),
    (
        b"1,1,1\n1,1,1001\n9,9,1\n",
        b"refused 56 WeightRange w.csv 2",
    ),
];

#[test]
fn records(rt: HostRuntime) -> Result<(), Fail> {
    let alloc = rt.alloc();
    // A native entry `size` of one input.
    let call: EntryCall = Box::new(
        alloc,
        |_inputs: &[i64]| -> i64
            ensures { result ≡ pos 0 }
        { 0 },
    )?;
    let entry = Entry::new(Text::of(alloc, b"size")?, 1, Formula::Number(0), call);
    let book = book_of(alloc, entry)?;
    for (weights, wanted) in WEIGHED {
        let found = answer_over(alloc, &book, COUPLED, *weights, false)?;
        assert_eq!(rt; found.as_slice(), *wanted, "at {weights:?}");
    }
    Ok(())
}

/// Faults of records beside a fault of a later step, and of an earlier one.
const WEIGHED_EDITS: &[(&[Edit], &[u8], &[u8])] = &[
    (
        &[(
            b"stopTime: 2000-01-01T03:00:00",
            b"stopTime: 2900-01-01T00:00:00",
        )],
        b"1,1\n",
        b"refused 54 BadRecord w.csv 1",
    ),
    (
        &[(b"q flux W/m2 optional", b"q flux W/m2 init")],
        b"1,1\n",
        b"refused 53 Waiting ATM OCN",
    ),
    // A connector without a pair has its file judged all the same.
    (
        &[(b"q flux W/m2 optional", b"q tas K optional")],
        b"1,1\n",
        b"refused 54 BadRecord w.csv 1",
    ),
    // One by redistribution asks for no file.
    (
        &[(
            b":remapMethod=weights:weightFile=w.csv",
            b":weightFile=w.csv",
        )],
        b"1,1\n",
        b"accepted operations 24",
    ),
];

#[test]
fn records_beside_other_faults(rt: HostRuntime) -> Result<(), Fail> {
    let alloc = rt.alloc();
    // A native entry `size` of one input.
    let call: EntryCall = Box::new(
        alloc,
        |_inputs: &[i64]| -> i64
            ensures { result ≡ pos 0 }
        { 0 },
    )?;
    let entry = Entry::new(Text::of(alloc, b"size")?, 1, Formula::Number(0), call);
    let book = book_of(alloc, entry)?;
    for (edits, weights, wanted) in WEIGHED_EDITS {
        let text = edited(alloc, *edits)?;
        let found = answer_over(alloc, &book, text.as_slice(), *weights, false)?;
        assert_eq!(rt; found.as_slice(), *wanted, "at {edits:?}");
    }
    Ok(())
}
