//! Three files whose components are accepted, and the answers to files that differ from them by a few lines.

use crate::shown::answer;
use cpl_base::{cut, number_word, write_number};
use std::alloc::Global;
use std::process::Abort;
use std::test::Fail;

/// A file, line by line.
pub type File = &'static [&'static [u8]];

/// In an edit, the end of a file.
pub const END: usize = 0;

/// Edits of a file: the line of each number becomes that text, of one line or more. At `END` the text comes behind
/// the last line. In a text `{N piece}` stands for `N` pieces, and a `%` in a piece for its number from 0.
pub type Edits<'a> = &'a [(usize, &'a [u8])];

/// Edits of a file, each with the answer to the file that they make.
pub type Rows = &'static [(Edits<'static>, &'static [u8])];

/// A model with a variable, an import and an export.
pub const MODEL: File = &[
    b"EARTH_component_list: A",
    b"dictionary::",
    b"level m",
    b"heat W/m2",
    b"::",
    b"A_grid: 4 2",
    b"A_vars::",
    b"x = 0",
    b"::",
    b"A_import::",
    b"in level m",
    b"::",
    b"A_export::",
    b"out heat W/m2 = 0",
    b"::",
    b"A_phase_run::",
    b"x = x + 1",
    b"::",
];

/// A model, and a mediator of two phases.
pub const BOTH: File = &[
    b"EARTH_component_list: A M",
    b"dictionary::",
    b"level m",
    b"::",
    b"alarms::",
    b"noon every 86400 from 43200",
    b"::",
    b"A_grid: 1 1",
    b"A_export::",
    b"x level m = 0",
    b"::",
    b"A_phase_run::",
    b"x = x + 1",
    b"::",
    b"M_kind: mediator",
    b"M_grid: 1 1",
    b"M_vars::",
    b"v = 0",
    b"w = 0",
    b"::",
    b"M_import::",
    b"a level m",
    b"::",
    b"M_export::",
    b"e level m = 0",
    b"::",
    b"M_phases: first second",
    b"M_phase_first::",
    b"v = a",
    b"::",
    b"M_phase_second::",
    b"w = v",
    b"::",
];

/// A model on one cell, with a variable.
pub const COUNTING: File = &[
    b"EARTH_component_list: A",
    b"A_grid: 1 1",
    b"A_vars::",
    b"x = 0",
    b"::",
    b"A_phase_run::",
    b"x = x + 1",
    b"::",
    b"runSeq::",
    b"@1:3",
    b"A",
    b"@",
    b"::",
];

/// The text of an edit at this line number, or else the line.
fn line_at<'a>(edits: Edits<'a>, number: usize, line: &'a [u8]) -> &'a [u8] {
    for (place, text) in edits {
        if *place == number {
            return *text;
        }
    }
    line
}

/// Appends a piece, in which each mark stands for the number.
pub fn put_numbered(out: &mut Vec<u8>, piece: &[u8], mark: u8, number: u64) -> Result<(), Fail> {
    for (place, part) in piece.split(|byte| *byte == mark).enumerate() {
        if place > 0 {
            write_number(out, u128::from(number))?;
        }
        out.extend_from_slice(part)?;
    }
    Ok(())
}

/// Appends what braces hold: `N piece` stands for the pieces of the numbers from 0 that are less than `N`.
fn put_pieces(out: &mut Vec<u8>, inside: &[u8]) -> Result<(), Fail> {
    let (times, piece) = cut(inside, b' ').ok_or("no piece")?;
    for number in 0..number_word(times).ok_or("no number")? {
        put_numbered(out, piece, b'%', number)?;
    }
    Ok(())
}

/// Appends a line of text, in which braces stand for pieces.
fn put_line(out: &mut Vec<u8>, line: &[u8]) -> Result<(), Fail> {
    for (place, part) in line.split(|byte| *byte == b'{').enumerate() {
        if place == 0 {
            out.extend_from_slice(part)?;
        } else {
            let (inside, behind) = cut(part, b'}').ok_or("an open brace")?;
            put_pieces(out, inside)?;
            out.extend_from_slice(behind)?;
        }
    }
    Ok(out.push(b'\n')?)
}

/// A file with its edits.
pub fn edited(alloc: Global, file: File, edits: Edits<'_>) -> Result<Vec<u8>, Fail> {
    let mut out = Vec::new(alloc);
    for (place, line) in file.iter().enumerate() {
        put_line(&mut out, line_at(edits, place + 1, *line))?;
    }
    put_line(&mut out, line_at(edits, END, b""))?;
    Ok(out)
}

/// Asserts the answer to each of these edits of a file.
pub fn expect_rows(rt: &impl Abort, alloc: Global, file: File, rows: Rows) -> Result<(), Fail> {
    for (edits, wanted) in rows {
        let text = edited(alloc, file, *edits)?;
        let found = answer(alloc, text.as_slice())?;
        assert_eq!(rt; found.as_slice(), *wanted, "at {edits:?}");
    }
    Ok(())
}
