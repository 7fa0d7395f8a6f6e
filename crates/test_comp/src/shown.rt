//! The answer to a file in words, as the program prints a refusal: the fault, then the component's name where it
//! has one, then its numbers; `ok` for a file whose components are accepted.

use crate::reading::{components, names_in, setting_of};
use cpl_base::{Text, write_number};
use cpl_comp::CompFault;
use std::alloc::Global;
use std::test::Fail;

/// Appends words and numbers behind them, by single blanks.
fn put(out: &mut Vec<u8>, word: &[u8], numbers: &[u64]) -> Result<(), Fail> {
    out.extend_from_slice(word)?;
    for number in numbers {
        out.push(b' ')?;
        write_number(out, u128::from(*number))?;
    }
    Ok(())
}

/// Appends a word, the name of the component and numbers, by single blanks.
fn put_named(out: &mut Vec<u8>, word: &[u8], name: &[u8], numbers: &[u64]) -> Result<(), Fail> {
    out.extend_from_slice(word)?;
    out.push(b' ')?;
    put(out, name, numbers)
}

/// The word for a fault at a line.
fn line_fault(fault: &CompFault) -> Option<(&'static [u8], u32)> {
    Some(match fault {
        CompFault::BadValue { line } => (b"BadValue", *line),
        CompFault::PetOutOfRange { line } => (b"PetOutOfRange", *line),
        CompFault::FieldTwice { line } => (b"FieldTwice", *line),
        CompFault::StandardUnknown { line } => (b"StandardUnknown", *line),
        CompFault::UnitsDiffer { line } => (b"UnitsDiffer", *line),
        CompFault::PhaseTwice { line } => (b"PhaseTwice", *line),
        CompFault::TooManyCells { line } => (b"TooManyCells", *line),
        CompFault::NameUnknown { line } => (b"NameUnknown", *line),
        CompFault::DeepFormula { line } => (b"DeepFormula", *line),
        CompFault::EntryUnknown { line } => (b"EntryUnknown", *line),
        CompFault::InputsDiffer { line } => (b"InputsDiffer", *line),
        _ => return None,
    })
}

/// The word for a fault at a place of a line.
fn place_fault(fault: &CompFault) -> Option<(&'static [u8], u32, u32)> {
    Some(match fault {
        CompFault::Syntax { line, at } => (b"Syntax", *line, *at),
        CompFault::BadNumber { line, at } => (b"BadNumber", *line, *at),
        CompFault::FarNeighbour { line, at } => (b"FarNeighbour", *line, *at),
        _ => return None,
    })
}

/// Appends a fault of no line.
fn put_whole(out: &mut Vec<u8>, name: &[u8], fault: &CompFault) -> Result<(), Fail> {
    match fault {
        CompFault::TooManyFields { count } => put_named(out, b"TooManyFields", name, &[*count]),
        CompFault::TooManyPhases { count } => put_named(out, b"TooManyPhases", name, &[*count]),
        CompFault::NoGrid => put_named(out, b"NoGrid", name, &[]),
        CompFault::BlocksMismatch { blocks, pets } => {
            put_named(out, b"BlocksMismatch", name, &[*blocks, u64::from(*pets)])
        }
        CompFault::MissingLabel { label } => put_named(out, b"MissingLabel", label.bytes(), &[]),
        _ => put(out, b"Memory", &[]),
    }
}

/// Appends a fault of the component of this name.
fn put_fault(out: &mut Vec<u8>, name: &[u8], fault: &CompFault) -> Result<(), Fail> {
    if let Some((word, line)) = line_fault(fault) {
        return put(out, word, &[u64::from(line)]);
    }
    if let Some((word, line, at)) = place_fault(fault) {
        return put(out, word, &[u64::from(line), u64::from(at)]);
    }
    put_whole(out, name, fault)
}

/// The bytes of the name at a place, none where there is no such name.
fn name_at(names: &[Text], place: usize) -> &[u8] {
    match names.get(place) {
        Some(name) => name.bytes(),
        None => &[],
    }
}

/// The answer to a file.
pub fn answer(alloc: Global, file: &[u8]) -> Result<Vec<u8>, Fail> {
    let setting = setting_of(alloc, file)?;
    let mut out = Vec::new(alloc);
    match components(alloc, &setting) {
        Ok(_) => put(&mut out, b"ok", &[])?,
        Err(refused) => {
            let name = name_at(names_in(&setting.items), refused.place);
            put_fault(&mut out, name, &refused.fault)?;
        }
    }
    Ok(out)
}
