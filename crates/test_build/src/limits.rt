//! Limits: lengths of files, records of all files of weights together, routes, and rows of a trace.

ghost use Rattle.std.specs.Prelude.{◌≡◌, pos};

use crate::builds::edited;
use crate::edits::{COUPLED, Edit};
use crate::shown::{book_of, expect_answer, expect_over};
use cpl_base::{MemShelf, Text, write_number};
use cpl_entry::{Entry, EntryCall};
use cpl_formula::Formula;
use std::alloc::Global;
use std::process::Abort;
use std::test::Fail;

/// A text lengthened by blanks to so many bytes.
fn lengthened(alloc: Global, text: &[u8], length: usize) -> Result<Vec<u8>, Fail> {
    let mut out = Vec::with_capacity(alloc, length)?;
    out.extend_from_slice(text)?;
    for _ in text.len()..length {
        out.push(b' ')?;
    }
    Ok(out)
}

/// A file of 4 MiB, and one of a byte more.
#[test]
fn long_files(rt: HostRuntime) -> Result<(), Fail> {
    let alloc = rt.alloc();
    // A native entry `size` of one input.
    let call: EntryCall = Box::new(
        alloc,
        |_inputs: &[i64]| -> i64
            ensures { result ≡ pos 0 }
        { 0 },
    )?;
    let entry = Entry::new(Text::of(alloc, b"size")?, 1, Formula::Number(0), call);
    let book = book_of(alloc, entry)?;
    let full = lengthened(alloc, COUPLED, 4_194_304)?;
    expect_over(
        &rt,
        alloc,
        &book,
        full.as_slice(),
        b"",
        false,
        b"accepted operations 24",
    )?;
    let longer = lengthened(alloc, COUPLED, 4_194_305)?;
    expect_over(
        &rt,
        alloc,
        &book,
        longer.as_slice(),
        b"",
        false,
        b"refused 1 TooLong conf.rc",
    )?;
    Ok(())
}

/// Weights of 64 MiB, the last record of them no weight, and of a byte more.
#[test]
fn long_weights(rt: HostRuntime) -> Result<(), Fail> {
    let alloc = rt.alloc();
    // A native entry `size` of one input.
    let call: EntryCall = Box::new(
        alloc,
        |_inputs: &[i64]| -> i64
            ensures { result ≡ pos 0 }
        { 0 },
    )?;
    let entry = Entry::new(Text::of(alloc, b"size")?, 1, Formula::Number(0), call);
    let book = book_of(alloc, entry)?;
    let full = lengthened(alloc, b"1,1,1\n1,2,", 67_108_864)?;
    expect_over(
        &rt,
        alloc,
        &book,
        COUPLED,
        full.as_slice(),
        false,
        b"refused 54 BadRecord w.csv 2",
    )?;
    let longer = lengthened(alloc, b"1,1,1\n1,2,", 67_108_865)?;
    expect_over(
        &rt,
        alloc,
        &book,
        COUPLED,
        longer.as_slice(),
        false,
        b"refused 1 TooLong w.csv",
    )?;
    Ok(())
}

/// Weights from and to 2,048 cells: a record for each of so many pairs.
fn weights_of(alloc: Global, count: u32) -> Result<Vec<u8>, Fail> {
    let mut out = Vec::new(alloc);
    for place in 0..count {
        write_number(&mut out, u128::from(place % 2048 + 1))?;
        out.push(b',')?;
        write_number(&mut out, u128::from(place / 2048 % 2048 + 1))?;
        out.extend_from_slice(b",1\n")?;
    }
    Ok(out)
}

/// Three components of 2,048 cells, and four connectors by the weights of one file.
const FOUR: &[u8] = b"\
EARTH_component_list: A B C\n\
A_grid: 2048 1\n\
B_grid: 2048 1\n\
C_grid: 2048 1\n\
A_phase_run::\n\
::\n\
B_phase_run::\n\
::\n\
C_phase_run::\n\
::\n\
runSeq::\n\
@1:1\n\
A -> B :remapMethod=weights:weightFile=w.csv\n\
B -> A :remapMethod=weights:weightFile=w.csv\n\
A -> C :remapMethod=weights:weightFile=w.csv\n\
C -> A :remapMethod=weights:weightFile=w.csv\n\
";

/// All weights together have 2^24 records; then a fifth file has one more, which is none, and then one of each of two
/// files has a fault.
#[test]
fn records_of_all_files(rt: HostRuntime) -> Result<(), Fail> {
    let alloc = rt.alloc();
    // A native entry `size` of one input.
    let call: EntryCall = Box::new(
        alloc,
        |_inputs: &[i64]| -> i64
            ensures { result ≡ pos 0 }
        { 0 },
    )?;
    let entry = Entry::new(Text::of(alloc, b"size")?, 1, Formula::Number(0), call);
    let book = book_of(alloc, entry)?;
    let mut full = Vec::from_slice(alloc, FOUR)?;
    full.extend_from_slice(b"@\n::\n")?;
    let mut longer = Vec::from_slice(alloc, FOUR)?;
    longer.extend_from_slice(b"B -> C :remapMethod=weights:weightFile=v.csv\n@\n::\n")?;
    let mut shelf = MemShelf::new(alloc);
    let weights = weights_of(alloc, 4_194_304)?;
    shelf.add("w.csv", weights.as_slice())?;
    shelf.add("v.csv", b"x\n")?;
    shelf.add("conf.rc", full.as_slice())?;
    expect_answer(
        &rt,
        alloc,
        &book,
        &mut shelf,
        false,
        b"accepted operations 7",
    )?;
    shelf.add("conf.rc", longer.as_slice())?;
    expect_answer(
        &rt,
        alloc,
        &book,
        &mut shelf,
        false,
        b"refused 58 TooManyWeights v.csv 1",
    )?;
    let more = weights_of(alloc, 4_194_305)?;
    shelf.add("w.csv", more.as_slice())?;
    expect_answer(
        &rt,
        alloc,
        &book,
        &mut shelf,
        false,
        b"refused 58 TooManyWeights w.csv 4194305",
    )?;
    Ok(())
}

/// A component on 64 PETs, sixteen phases of which read all sixteen fields two columns away.
fn wide_halos(alloc: Global, phases: u32) -> Result<Vec<u8>, Fail> {
    let mut out = Vec::from_slice(
        alloc,
        b"EARTH_component_list: A\nA_petlist_bounds: 0 63\nA_grid: 1024 1024\nA_vars::\n",
    )?;
    for field in 0..16 {
        put_numbered(&mut out, b"v", field, b" = 0\n")?;
    }
    out.extend_from_slice(b"::\nA_phases:")?;
    for phase in 0..phases {
        put_numbered(&mut out, b" p", phase, b"")?;
    }
    out.push(b'\n')?;
    for phase in 0..phases {
        put_numbered(&mut out, b"A_phase_p", phase, b"::\n")?;
        for field in 0..16 {
            put_numbered(&mut out, b"v", field, b" = v")?;
            put_numbered(&mut out, b"", field, b"[2,0] + v")?;
            put_numbered(&mut out, b"", field, b"[-2,0]\n")?;
        }
        out.extend_from_slice(b"::\n")?;
    }
    out.extend_from_slice(b"runSeq::\n@1:1\nA\n@\n::\n")?;
    Ok(out)
}

/// Appends a number between two pieces.
fn put_numbered(out: &mut Vec<u8>, before: &[u8], number: u32, behind: &[u8]) -> Result<(), Fail> {
    out.extend_from_slice(before)?;
    write_number(out, u128::from(number))?;
    out.extend_from_slice(behind)?;
    Ok(())
}

/// Halos of 126 sides of 2,048 cells: 4,128,768 numbers a phase.
#[test]
fn numbers_of_routes(rt: HostRuntime) -> Result<(), Fail> {
    let alloc = rt.alloc();
    // A native entry `size` of one input.
    let call: EntryCall = Box::new(
        alloc,
        |_inputs: &[i64]| -> i64
            ensures { result ≡ pos 0 }
        { 0 },
    )?;
    let entry = Entry::new(Text::of(alloc, b"size")?, 1, Formula::Number(0), call);
    let book = book_of(alloc, entry)?;
    let eight = wide_halos(alloc, 8)?;
    expect_over(
        &rt,
        alloc,
        &book,
        eight.as_slice(),
        b"",
        false,
        b"accepted operations 2",
    )?;
    let nine = wide_halos(alloc, 9)?;
    expect_over(
        &rt,
        alloc,
        &book,
        nine.as_slice(),
        b"",
        false,
        b"refused 60 TooManyRoutes 37158912",
    )?;
    Ok(())
}

/// A day after the last moment at which a trace of two rows an hour isn't too long, and that moment.
#[test]
fn rows_of_traces(rt: HostRuntime) -> Result<(), Fail> {
    let alloc = rt.alloc();
    // A native entry `size` of one input.
    let call: EntryCall = Box::new(
        alloc,
        |_inputs: &[i64]| -> i64
            ensures { result ≡ pos 0 }
        { 0 },
    )?;
    let entry = Entry::new(Text::of(alloc, b"size")?, 1, Formula::Number(0), call);
    let book = book_of(alloc, entry)?;
    let last: &[Edit] = &[(
        b"stopTime: 2000-01-01T03:00:00",
        b"stopTime: 2014-12-14T08:00:00",
    )];
    let long = edited(alloc, last)?;
    expect_over(
        &rt,
        alloc,
        &book,
        long.as_slice(),
        b"",
        true,
        b"accepted operations 917507",
    )?;
    let later: &[Edit] = &[(
        b"stopTime: 2000-01-01T03:00:00",
        b"stopTime: 2014-12-15T08:00:00",
    )];
    let longer = edited(alloc, later)?;
    expect_over(
        &rt,
        alloc,
        &book,
        longer.as_slice(),
        b"",
        true,
        b"refused 61 TraceTooLong 262192",
    )?;
    expect_over(
        &rt,
        alloc,
        &book,
        longer.as_slice(),
        b"",
        false,
        b"accepted operations 917675",
    )?;
    Ok(())
}
