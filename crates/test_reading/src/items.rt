//! Value items and tables.

use cpl_base::write_number;
use cpl_config::{Item, ItemFault, Items, Row, item_examples, read_items};
use cpl_text::{TextFault, lines};
use std::alloc::Global;
use std::process::Abort;
use std::test::Fail;

/// Why a text has no items.
#[derive(Clone, Copy, Debug, PartialEq, Eq)]
enum Refused {
    /// One of its lines is none.
    Text(TextFault),
    /// Its lines aren't items.
    Items(ItemFault),
    /// It is longer than any text of these tests.
    TooLong,
}

/// The items of a text of less than 16 MiB.
fn items(alloc: Global, bytes: &[u8]) -> Result<Items, Refused> {
    if bytes.len() > 16_777_216 {
        return Err(Refused::TooLong);
    }
    match lines(alloc, bytes) {
        Ok(lines) => match read_items(alloc, bytes, lines.as_slice()) {
            Ok(items) => Ok(items),
            Err(fault) => Err(Refused::Items(fault)),
        },
        Err(fault) => Err(Refused::Text(fault)),
    }
}

/// Why a text has no items, if it has none.
fn refusal(alloc: Global, bytes: &[u8]) -> Option<Refused> {
    items(alloc, bytes).err()
}

/// Whether a row has this line and these words.
fn is_row(row: Option<&Row>, line: u32, wanted: &[&[u8]]) -> bool {
    match row {
        None => false,
        Some(row) => {
            let words = row.words.items();
            row.line == line
                && words.len() == wanted.len()
                && words
                    .iter()
                    .zip(wanted)
                    .all(|(word, text)| word.bytes() == *text)
        }
    }
}

/// A file of one model on one cell.
const ONE_CELL: &[u8] =
    b"EARTH_component_list: A\nA_grid: 1 1\nA_vars::\nx = 0\n::\nA_phase_run::\nx = x + 1\n::\nrunSeq::\n@1:3\nA\n@\n::\n";

/// Asserts what the items of that file are.
fn expect_one_cell(rt: &impl Abort, items: &Items) {
    assert!(rt; is_row(items.value(b"EARTH_component_list"), 1, &[b"A"]));
    assert!(rt; is_row(items.value(b"A_grid"), 2, &[b"1", b"1"]));
    assert!(rt; items.value(b"runSeq").is_none());
    assert!(rt; items.table(b"A_grid").is_none());
    let sequence = items.table(b"runSeq").unwrap_or(&[]);
    assert_eq!(rt; sequence.len(), 3);
    assert!(rt; is_row(sequence.get(0), 10, &[b"@1:3"]));
    assert!(rt; is_row(sequence.get(2), 12, &[b"@"]));
    assert_eq!(rt; items.table_line(b"runSeq"), Some(9));
    assert_eq!(rt; items.table_line(b"A_grid"), None);
}

#[test]
fn items_of_a_file(rt: HostRuntime) {
    let items = items(rt.alloc(), ONE_CELL);
    assert!(rt; items.is_ok());
    if let Ok(items) = &items {
        expect_one_cell(&rt, items);
    }
    item_examples();
}

/// Appends the words of a row, each behind a blank.
fn push_words(text: &mut Vec<u8>, row: &Row) -> Result<(), Fail> {
    for word in row.words.items() {
        text.push(b' ')?;
        text.extend_from_slice(word.bytes())?;
    }
    Ok(text.push(b'\n')?)
}

/// Appends an item behind its label.
fn push_item(text: &mut Vec<u8>, item: &Item) -> Result<(), Fail> {
    match item {
        Item::Values(row) => push_words(text, row),
        Item::Rows(table) => {
            text.extend_from_slice(b":\n")?;
            for row in table.rows.items() {
                push_words(text, row)?;
            }
            Ok(text.extend_from_slice(b"::\n")?)
        }
    }
}

/// Items as a text of which they are the items, in their order.
fn shown(alloc: Global, items: &Items) -> Result<Vec<u8>, Fail> {
    let mut text = Vec::new(alloc);
    for entry in items.entries() {
        text.extend_from_slice(entry.label.bytes())?;
        text.push(b':')?;
        push_item(&mut text, &entry.item)?;
    }
    Ok(text)
}

#[test]
fn order_of_items(rt: HostRuntime) -> Result<(), Fail> {
    let alloc = rt.alloc();
    let cases: [(&[u8], &[u8]); 5] = [
        (b"", b""),
        (b"b: 1\na:2 3\n", b"b: 1\na: 2 3\n"),
        (b"t::\n::\na:\n", b"t::\n::\na:\n"),
        (
            b"z: 1\na::\n x\ty # w\n\n b: \n::\na: 2\nz::\n::\n:::\n::",
            b"z: 1\na::\n x y\n b:\n::\na: 2\nz::\n::\n:::\n::\n",
        ),
        (
            b"c::\n 3\n::\nb::\n 2\n::\na::\n 1\n::\nb: 4\n",
            b"c::\n 3\n::\nb::\n 2\n::\na::\n 1\n::\nb: 4\n",
        ),
    ];
    for (bytes, wanted) in cases {
        let text = shown(alloc, &items(alloc, bytes)?)?;
        assert_eq!(rt; text.as_slice(), wanted);
        let again = shown(alloc, &items(alloc, text.as_slice())?)?;
        assert_eq!(rt; again.as_slice(), wanted);
    }
    Ok(())
}

#[test]
fn files_that_are_refused(rt: HostRuntime) {
    let cases: [(&[u8], ItemFault); 10] = [
        (b"a: 1\nA_grid 1 1\n", ItemFault::BadLine { line: 2 }),
        (b"a:: b\n::\n", ItemFault::BadLine { line: 1 }),
        (b":x\n", ItemFault::BadLine { line: 1 }),
        (b":\n", ItemFault::BadLine { line: 1 }),
        (b"a: 1\n:: b\n", ItemFault::StrayClose { line: 2 }),
        (b"a::\n::\n::\n", ItemFault::StrayClose { line: 3 }),
        (
            b"a: 1\nb: 2\na: 3\nc d\n",
            ItemFault::LabelTwice { line: 3 },
        ),
        (b"a::\n::\na::\n::\n", ItemFault::LabelTwice { line: 3 }),
        (b"a: 1\nb::\nc\n", ItemFault::Unclosed { line: 2 }),
        (b"a b\nb::\nc\n", ItemFault::BadLine { line: 1 }),
    ];
    for (bytes, wanted) in cases {
        assert_eq!(rt; refusal(rt.alloc(), bytes), Some(Refused::Items(wanted)));
    }
    let not_ascii: [(&[u8], u32); 2] = [(b"x = 0\xE9\n", 1), (b"a: 1\n::\n\xE9", 3)];
    for (bytes, line) in not_ascii {
        let wanted = Refused::Text(TextFault::NotAscii { line });
        assert_eq!(rt; refusal(rt.alloc(), bytes), Some(wanted));
    }
}

/// The text `label0: 0`, `label1: 1` and so on, one a line, of so many labels.
fn many_labels(alloc: Global, count: u64) -> Result<Vec<u8>, Fail> {
    let mut text = Vec::new(alloc);
    for number in 0..count {
        text.extend_from_slice(b"label")?;
        write_number(&mut text, u128::from(number))?;
        text.extend_from_slice(b": value ")?;
        write_number(&mut text, u128::from(number))?;
        text.push(b'\n')?;
    }
    Ok(text)
}

#[test]
fn a_text_of_many_labels(rt: HostRuntime) -> Result<(), Fail> {
    let alloc = rt.alloc();
    let text = many_labels(alloc, 200_000)?;
    assert!(rt; text.len() > 4_194_304);
    let items = items(alloc, text.as_slice());
    assert!(rt; items.is_ok());
    if let Ok(items) = &items {
        assert!(rt; is_row(items.value(b"label199999"), 200_000, &[b"value", b"199999"]));
        assert!(rt; items.value(b"label200000").is_none());
        assert_eq!(rt; items.entries().len(), 200_000);
    }
    Ok(())
}
