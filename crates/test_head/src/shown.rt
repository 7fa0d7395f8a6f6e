//! The answers to a file in words: what was read, or the fault as the program prints a refusal.

use crate::files::items_of;
use cpl_base::{Text, write_number};
use cpl_calendar::Cal;
use cpl_clock::Alarm;
use cpl_head::{AlarmTable, Head, HeadFault, TableFault, read_alarms, read_dictionary, read_head};
use std::alloc::Global;
use std::test::Fail;

/// Appends a word and a number behind it, by a single blank.
fn put(out: &mut Vec<u8>, word: &[u8], number: u128) -> Result<(), Fail> {
    out.extend_from_slice(word)?;
    out.push(b' ')?;
    write_number(out, number)?;
    Ok(())
}

/// Appends words, each with a blank behind it.
fn put_words(out: &mut Vec<u8>, words: &[Text]) -> Result<(), Fail> {
    for word in words {
        out.extend_from_slice(word.bytes())?;
        out.push(b' ')?;
    }
    Ok(())
}

/// Appends a head: its names, its calendar, its start, and its span and its step where it has them.
fn put_head(out: &mut Vec<u8>, head: &Head) -> Result<(), Fail> {
    put_words(out, head.components.items())?;
    let cal: &[u8] = match head.cal {
        Cal::Gregorian => b"Gregorian",
        Cal::NoLeap => b"NoLeap",
        Cal::Day360 => b"Day360",
    };
    put(out, cal, u128::from(head.start.unsigned_abs()))?;
    if let Some(span) = head.span {
        put(out, b" span", u128::from(span.unsigned_abs()))?;
    }
    if let Some(step) = head.time_step {
        put(out, b" step", u128::from(step.unsigned_abs()))?;
    }
    Ok(())
}

/// Appends the fault of a head.
fn put_head_fault(out: &mut Vec<u8>, fault: &HeadFault) -> Result<(), Fail> {
    let (word, line): (&[u8], u32) = match fault {
        HeadFault::MissingLabel { label } => {
            out.extend_from_slice(b"MissingLabel ")?;
            out.extend_from_slice(label.bytes())?;
            return Ok(());
        }
        HeadFault::TooManyComponents { count } => {
            return put(out, b"TooManyComponents", u128::from(*count));
        }
        HeadFault::BadValue { line } => (b"BadValue", *line),
        HeadFault::BadTime { line } => (b"BadTime", *line),
        HeadFault::YearRange { line } => (b"YearRange", *line),
        HeadFault::NoSuchDay { line } => (b"NoSuchDay", *line),
        HeadFault::StopNotAfter { line } => (b"StopNotAfter", *line),
        HeadFault::Memory => (b"Memory", 0),
    };
    put(out, word, u128::from(line))
}

/// Appends the fault of a table.
fn put_table_fault(out: &mut Vec<u8>, fault: TableFault) -> Result<(), Fail> {
    let (word, line): (&[u8], u32) = match fault {
        TableFault::BadValue { line } => (b"BadValue", line),
        TableFault::NameTwice { line } => (b"NameTwice", line),
        TableFault::NameUnknown { line } => (b"NameUnknown", line),
        TableFault::UnitsDiffer { line } => (b"UnitsDiffer", line),
        TableFault::Memory => (b"Memory", 0),
    };
    put(out, word, u128::from(line))
}

/// Appends alarms, each with a `;` behind it.
fn put_alarms(out: &mut Vec<u8>, table: &AlarmTable) -> Result<(), Fail> {
    for (name, alarm) in table.names.items().iter().zip(table.alarms.items()) {
        out.extend_from_slice(name.bytes())?;
        match *alarm {
            Alarm::Every { first, interval } => {
                put(out, b" every", u128::from(interval.unsigned_abs()))?;
                put(out, b" from", u128::from(first.unsigned_abs()))?;
            }
            Alarm::Monthly => out.extend_from_slice(b" monthly")?,
        }
        out.push(b';')?;
    }
    Ok(())
}

/// What is read of a file's head.
pub fn head_answer(alloc: Global, file: &[u8]) -> Result<Vec<u8>, Fail> {
    let mut out = Vec::new(alloc);
    match read_head(alloc, &items_of(alloc, file)?) {
        Ok(head) => put_head(&mut out, &head)?,
        Err(fault) => put_head_fault(&mut out, &fault)?,
    }
    Ok(out)
}

/// What is read of a file's dictionary: how many names it has, and how many rows of synonyms.
pub fn dictionary_answer(alloc: Global, file: &[u8]) -> Result<Vec<u8>, Fail> {
    let mut out = Vec::new(alloc);
    match read_dictionary(alloc, &items_of(alloc, file)?) {
        Ok(dict) => {
            put(&mut out, b"names", dict.name_count() as u128)?;
            put(&mut out, b" synonyms", dict.call_count() as u128)?;
        }
        Err(fault) => put_table_fault(&mut out, fault)?,
    }
    Ok(out)
}

/// What is read of a file's alarms.
pub fn alarms_answer(alloc: Global, file: &[u8]) -> Result<Vec<u8>, Fail> {
    let mut out = Vec::new(alloc);
    match read_alarms(alloc, &items_of(alloc, file)?) {
        Ok(table) => put_alarms(&mut out, &table)?,
        Err(fault) => put_table_fault(&mut out, fault)?,
    }
    Ok(out)
}
