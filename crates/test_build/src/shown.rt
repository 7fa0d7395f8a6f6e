//! The answer to a file in words: how many operations it has, the refusal, or the file that couldn't be read.

use cpl_base::{MemShelf, Memory, write_number};
use cpl_build::{BuildFault, build, build_text};
use cpl_entry::{Entry, EntryBook};
use cpl_report::{Refusal, refusal_text};
use cpl_script::System;
use std::alloc::Global;
use std::process::Abort;
use std::test::Fail;

/// A book of one native entry.
pub fn book_of(alloc: Global, entry: Entry) -> Result<EntryBook, Fail> {
    let mut entries = Vec::new(alloc);
    entries.push(entry)?;
    Ok(EntryBook::new(alloc, entries)?)
}

/// The answer to the file `conf.rc` of a shelf.
pub fn answer_to(
    alloc: Global,
    book: &EntryBook,
    shelf: &mut MemShelf,
    trace: bool,
) -> Result<Vec<u8>, Fail> {
    in_words(alloc, build(alloc, shelf, "conf.rc", book, trace))
}

/// The answer to a text that isn't on a shelf, over one that holds weights in `w.csv`.
pub fn answer_to_text(
    alloc: Global,
    book: &EntryBook,
    text: &[u8],
    weights: &[u8],
) -> Result<Vec<u8>, Fail> {
    if text.len() > 4_194_304 {
        return Err(Fail::from(Memory));
    }
    let mut shelf = MemShelf::new(alloc);
    shelf.add("w.csv", weights)?;
    in_words(alloc, build_text(alloc, text, &mut shelf, book, false))
}

/// The answer of a call in words.
fn in_words(alloc: Global, answer: Result<System, BuildFault>) -> Result<Vec<u8>, Fail> {
    match answer {
        Ok(system) => accepted(alloc, &system),
        Err(BuildFault::Refused(refusal)) => refused(alloc, &refusal),
        Err(BuildFault::ReadFault { name }) => unread(alloc, name.bytes()),
        Err(BuildFault::Memory) => Err(Fail::from(Memory)),
    }
}

/// The answer to this text, over a shelf that holds weights in `w.csv`.
pub fn answer_over(
    alloc: Global,
    book: &EntryBook,
    text: &[u8],
    weights: &[u8],
    trace: bool,
) -> Result<Vec<u8>, Fail> {
    let mut shelf = MemShelf::new(alloc);
    shelf.add("conf.rc", text)?;
    shelf.add("w.csv", weights)?;
    answer_to(alloc, book, &mut shelf, trace)
}

/// The answer to the file `conf.rc` of a shelf is this.
pub fn expect_answer(
    rt: &impl Abort,
    alloc: Global,
    book: &EntryBook,
    shelf: &mut MemShelf,
    trace: bool,
    wanted: &[u8],
) -> Result<(), Fail> {
    let found = answer_to(alloc, book, shelf, trace)?;
    assert_eq!(rt; found.as_slice(), wanted);
    Ok(())
}

/// The answer to this text, over a shelf that holds weights in `w.csv`, is this.
pub fn expect_over(
    rt: &impl Abort,
    alloc: Global,
    book: &EntryBook,
    text: &[u8],
    weights: &[u8],
    trace: bool,
    wanted: &[u8],
) -> Result<(), Fail> {
    let found = answer_over(alloc, book, text, weights, trace)?;
    assert_eq!(rt; found.as_slice(), wanted);
    Ok(())
}

/// An accepted system in words.
fn accepted(alloc: Global, system: &System) -> Result<Vec<u8>, Fail> {
    let mut text = Vec::from_slice(alloc, b"accepted operations ")?;
    write_number(&mut text, u128::from(system.op_count()))?;
    Ok(text)
}

/// A refusal in words: its line, without the end of it.
fn refused(alloc: Global, refusal: &Refusal) -> Result<Vec<u8>, Fail> {
    if refusal.number < 1 || refusal.number > 73 {
        return Err(Fail::from(Memory));
    }
    let mut text = refusal_text(alloc, refusal)?;
    text.pop();
    Ok(text)
}

/// A file that couldn't be read in words.
fn unread(alloc: Global, name: &[u8]) -> Result<Vec<u8>, Fail> {
    let mut text = Vec::from_slice(alloc, b"read fault ")?;
    text.extend_from_slice(name)?;
    Ok(text)
}
