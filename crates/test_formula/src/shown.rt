//! What is read of a text, in print: `(x + 1) | x` is a tree with all its brackets and then its reads,
//! `Syntax 4` a fault and its place. An argument of a native rule is in print as its number or its read alone.

use crate::reading::{argument, read};
use cpl_base::{write_number, write_val};
use cpl_formula::{Argument, Formula, FormulaFault, Parsed, Read, ReadName};
use std::alloc::Global;
use std::test::Fail;

/// A unit has so many millionths.
const MILLION: i64 = 1_000_000;

/// A field or alarm by its place among the names, or `outside` where there is none.
fn name_at(names: &[&'static [u8]], place: u16) -> &'static [u8] {
    match names.get(place as usize) {
        Some(name) => *name,
        None => b"outside",
    }
}

/// The name of a quantity that is no field's and no alarm's.
fn quantity(name: ReadName) -> &'static [u8] {
    match name {
        ReadName::I => b"i",
        ReadName::J => b"j",
        ReadName::S => b"s",
        ReadName::Nx => b"nx",
        ReadName::Ny => b"ny",
        ReadName::Year => b"year",
        ReadName::Month => b"month",
        ReadName::Day => b"day",
        ReadName::Hour => b"hour",
        ReadName::Minute => b"minute",
        ReadName::Second => b"second",
        ReadName::Days => b"days",
        ReadName::DaySecond => b"daysec",
        ReadName::Dt => b"dt",
        ReadName::Field(_) | ReadName::Ring(_) => b"neither",
    }
}

/// Appends the name of what is read.
fn put_name(out: &mut Vec<u8>, name: ReadName) -> Result<(), Fail> {
    match name {
        ReadName::Field(place) => {
            out.extend_from_slice(name_at(&[b"x", b"y", b"flux", b"temp", b"y2"], place))?;
        }
        ReadName::Ring(place) => {
            out.extend_from_slice(b"ring_")?;
            out.extend_from_slice(name_at(&[b"a", b"daily"], place))?;
        }
        _ => out.extend_from_slice(quantity(name))?,
    }
    Ok(())
}

/// Appends an offset.
fn put_offset(out: &mut Vec<u8>, offset: i8) -> Result<(), Fail> {
    if offset < 0 {
        out.push(b'-')?;
    }
    Ok(write_number(out, u128::from(offset.unsigned_abs()))?)
}

/// Appends a read, with its offsets where it isn't at the cell itself.
fn put_read(out: &mut Vec<u8>, read: &Read) -> Result<(), Fail> {
    put_name(out, read.name)?;
    if read.dx != 0 || read.dy != 0 {
        out.push(b'[')?;
        put_offset(out, read.dx)?;
        out.push(b',')?;
        put_offset(out, read.dy)?;
        out.push(b']')?;
    }
    Ok(())
}

/// Appends a number of millionths, whole units without their places.
fn put_number(out: &mut Vec<u8>, number: i64) -> Result<(), Fail> {
    if number >= 0 && number % MILLION == 0 {
        write_number(out, (number / MILLION) as u128)?;
    } else {
        write_val(out, i128::from(number))?;
    }
    Ok(())
}

/// What stands before the parts of a tree, and between them.
fn signs(tree: &Formula) -> (&'static [u8], &'static [u8]) {
    match tree {
        Formula::Number(_) | Formula::Input(_) => (b"", b""),
        Formula::Minus(_) => (b"(-", b""),
        Formula::Abs(_) => (b"abs(", b""),
        Formula::Plus(_, _) => (b"(", b" + "),
        Formula::Less(_, _) => (b"(", b" - "),
        Formula::Times(_, _) => (b"(", b" * "),
        Formula::Over(_, _) => (b"(", b" / "),
        Formula::Min(_, _) => (b"min(", b", "),
        Formula::Max(_, _) => (b"max(", b", "),
        Formula::Select(_, _, _) => (b"sel(", b", "),
    }
}

/// Appends an input by the name of its read.
fn put_input(out: &mut Vec<u8>, place: u32, reads: &[Read]) -> Result<(), Fail> {
    match reads.get(place as usize) {
        Some(read) => put_read(out, read),
        None => Ok(out.extend_from_slice(b"no read")?),
    }
}

/// Appends a tree.
fn put_tree(out: &mut Vec<u8>, tree: &Formula, reads: &[Read]) -> Result<(), Fail> {
    let (before, between) = signs(tree);
    out.extend_from_slice(before)?;
    match tree {
        Formula::Number(number) => return put_number(out, *number),
        Formula::Input(place) => return put_input(out, *place, reads),
        Formula::Minus(a) | Formula::Abs(a) => put_tree(out, a.get(), reads)?,
        Formula::Plus(a, b)
        | Formula::Less(a, b)
        | Formula::Times(a, b)
        | Formula::Over(a, b)
        | Formula::Min(a, b)
        | Formula::Max(a, b) => {
            put_tree(out, a.get(), reads)?;
            out.extend_from_slice(between)?;
            put_tree(out, b.get(), reads)?;
        }
        Formula::Select(condition, a, b) => {
            put_tree(out, condition.get(), reads)?;
            out.extend_from_slice(between)?;
            put_tree(out, a.get(), reads)?;
            out.extend_from_slice(between)?;
            put_tree(out, b.get(), reads)?;
        }
    }
    Ok(out.push(b')')?)
}

/// Appends a tree and its reads.
fn put_parsed(out: &mut Vec<u8>, parsed: &Parsed) -> Result<(), Fail> {
    put_tree(out, &parsed.tree, parsed.reads.items())?;
    out.extend_from_slice(b" |")?;
    for read in parsed.reads.items() {
        out.push(b' ')?;
        put_read(out, read)?;
    }
    Ok(())
}

/// Appends a fault and its place, if it has one.
fn put_fault(out: &mut Vec<u8>, fault: FormulaFault) -> Result<(), Fail> {
    let (name, at): (&[u8], u32) = match fault {
        FormulaFault::Syntax { at } => (b"Syntax ", at),
        FormulaFault::BadNumber { at } => (b"BadNumber ", at),
        FormulaFault::NameUnknown { at } => (b"NameUnknown ", at),
        FormulaFault::FarNeighbour { at } => (b"FarNeighbour ", at),
        FormulaFault::DeepFormula => return Ok(out.extend_from_slice(b"DeepFormula")?),
        FormulaFault::Memory => return Ok(out.extend_from_slice(b"Memory")?),
    };
    out.extend_from_slice(name)?;
    Ok(write_number(out, u128::from(at))?)
}

/// What is read of a text, in print.
pub fn shown(alloc: Global, text: &[u8]) -> Result<Vec<u8>, Fail> {
    let mut out = Vec::new(alloc);
    match &read(alloc, text) {
        Ok(parsed) => put_parsed(&mut out, parsed)?,
        Err(fault) => put_fault(&mut out, *fault)?,
    }
    Ok(out)
}

/// What a word at a place stands for as an argument, in print.
pub fn shown_argument(alloc: Global, word: &[u8], at: u32) -> Result<Vec<u8>, Fail> {
    let mut out = Vec::new(alloc);
    match argument(alloc, word, at) {
        Ok(Argument::Number(number)) => put_number(&mut out, number)?,
        Ok(Argument::Cell(read)) => put_read(&mut out, &read)?,
        Err(fault) => put_fault(&mut out, fault)?,
    }
    Ok(out)
}
