//! Books of many entries, and labels that stand twice.

ghost use Rattle.std.specs.Prelude.{◌≡◌, ◌<◌, pos, ◌+ℤ◌, ◌-ℤ◌};

use cpl_base::{Memory, Text, words, write_number};
use cpl_entry::{Entry, EntryBook, EntryCall, EntryFault};
use cpl_formula::Formula;
use std::alloc::Global;
use std::process::Abort;
use std::test::Fail;

/// Labels, and the least place whose label stands before it.
const LABELS: [(&[u8], Option<u16>); 14] = [
    (b"", None),
    (b"a", None),
    (b"a b", None),
    (b"a b c d e", None),
    (b"a aa aaa b ab ba", None),
    (b"a A", None),
    (b"a a", Some(1)),
    (b"a b a", Some(2)),
    (b"a b b", Some(2)),
    (b"a b c a b c", Some(3)),
    (b"a b c c b a", Some(3)),
    (b"c b a d e b a", Some(5)),
    (b"a a a a", Some(1)),
    (b"relax flux diffuse relaxx flux", Some(4)),
];

/// How many entries the largest book has.
const MOST: u16 = 65_535;

/// The words of a line of the table; behind its end, as many numbers in decimal as the largest book has entries.
fn labels_of(alloc: Global, case: usize) -> Result<Vec<Text>, Memory> {
    if case < LABELS.len() {
        texts(alloc, LABELS[case].0)
    } else {
        numbers(alloc)
    }
}

/// The words of a line.
fn texts(alloc: Global, line: &[u8]) -> Result<Vec<Text>, Memory> {
    let mut texts = Vec::new(alloc);
    for word in words(alloc, line)?.iter() {
        texts.push(Text::of(alloc, word)?)?;
    }
    Ok(texts)
}

/// The first numbers, in decimal.
fn numbers(alloc: Global) -> Result<Vec<Text>, Memory> {
    let mut texts = Vec::new(alloc);
    for number in 0..MOST {
        let mut text = Vec::new(alloc);
        write_number(&mut text, number as u128)?;
        texts.push(Text::from_vec(text))?;
    }
    Ok(texts)
}

/// Asserts that each label finds its own place, and the entry there answers it.
fn expect_places(rt: &impl Abort, book: &EntryBook, labels: &[Text]) -> Result<(), EntryFault> {
    let signs = book.signs();
    assert_eq!(rt; signs.len(), labels.len());
    for (place, label) in labels.iter().enumerate() {
        assert_eq!(rt; signs[place].label.bytes(), label.bytes());
        let found = book.find(label.bytes(), 0)?;
        assert_eq!(rt; found as usize, place);
        assert_eq!(rt; book.call(found, &[]), found as i64);
    }
    Ok(())
}

/// Asserts the book of a line of the table, or the label that stands twice there.
fn expect_book(
    rt: &impl Abort,
    book: Result<EntryBook, EntryFault>,
    case: usize,
    labels: &[Text],
) -> Result<(), EntryFault> {
    let twice = if case < LABELS.len() {
        LABELS[case].1
    } else {
        None
    };
    match book {
        Ok(book) => {
            assert_eq!(rt; twice, None);
            expect_places(rt, &book, labels)
        }
        Err(fault) => {
            assert_eq!(rt;
                Some(fault),
                twice.map(|index| EntryFault::LabelTwice { index })
            );
            Ok(())
        }
    }
}

/// Books of labels that differ, as many as there may be, and labels that don't. Each entry answers its place, in
/// millionths, without inputs.
#[test]
fn labels_stand_once(rt: HostRuntime) -> Result<(), Fail> {
    let alloc = rt.alloc();
    for case in 0..=LABELS.len() {
        let labels = labels_of(alloc, case)?;
        let mut entries = Vec::new(alloc);
        for (place, label) in labels.iter().enumerate() {
            assert!(rt; place < 65_535);
            let number = place as i64;
            let call: EntryCall = Box::new(
                alloc,
                move |_inputs: &[i64]| -> i64
                    ensures { result ≡ number }
                { number },
            )?;
            entries.push(Entry::new(label.copy(alloc)?, 0, Formula::Number(number), call))?;
        }
        assert!(rt; entries.len() < 65_536);
        expect_book(&rt, EntryBook::new(alloc, entries), case, labels.as_slice())?;
    }
    Ok(())
}
