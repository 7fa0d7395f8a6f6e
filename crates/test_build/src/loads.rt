//! Shelves that lack a file, or whose loads fail.

ghost use Rattle.std.specs.Prelude.{◌≡◌, pos};

use crate::builds::edited;
use crate::edits::{COUPLED, Edit};
use crate::shown::{answer_to, book_of, expect_answer};
use cpl_base::{MemShelf, Text};
use cpl_entry::{Entry, EntryCall};
use cpl_formula::Formula;
use std::alloc::Global;
use std::process::Abort;
use std::test::Fail;

/// Two connectors by weights of one file.
const TWICE: &[Edit] = &[(
    b"OCN -> ATM\n",
    b"OCN -> ATM :remapMethod=weights:weightFile=w.csv\n",
)];

/// Two connectors by weights of two files.
const TWO_FILES: &[Edit] = &[(
    b"OCN -> ATM\n",
    b"OCN -> ATM :remapMethod=weights:weightFile=v.csv\n",
)];

/// A shelf with a file and these weights.
fn shelf_of(alloc: Global, text: &[u8], names: &[&str]) -> Result<MemShelf, Fail> {
    let mut shelf = MemShelf::new(alloc);
    shelf.add("conf.rc", text)?;
    for name in names {
        shelf.add(*name, b"1,1,0.5\n")?;
    }
    Ok(shelf)
}

#[test]
fn missing_files(rt: HostRuntime) -> Result<(), Fail> {
    let alloc = rt.alloc();
    // A native entry `size` of one input.
    let call: EntryCall = Box::new(
        alloc,
        |_inputs: &[i64]| -> i64
            ensures { result ≡ pos 0 }
        { 0 },
    )?;
    let entry = Entry::new(Text::of(alloc, b"size")?, 1, Formula::Number(0), call);
    let book = book_of(alloc, entry)?;
    let mut empty = MemShelf::new(alloc);
    expect_answer(&rt, alloc, &book, &mut empty, false, b"read fault conf.rc")?;
    let mut alone = shelf_of(alloc, COUPLED, &[])?;
    expect_answer(&rt, alloc, &book, &mut alone, false, b"read fault w.csv")?;
    let two = edited(alloc, TWO_FILES)?;
    let mut second = shelf_of(alloc, two.as_slice(), &["w.csv"])?;
    expect_answer(&rt, alloc, &book, &mut second, false, b"read fault v.csv")?;
    let mut first = shelf_of(alloc, two.as_slice(), &["v.csv"])?;
    expect_answer(&rt, alloc, &book, &mut first, false, b"read fault w.csv")?;
    Ok(())
}

/// The load of each number fails: the file, the first weights, the second, which are the same file, and one that isn't
/// asked for.
#[test]
fn failing_loads(rt: HostRuntime) -> Result<(), Fail> {
    let alloc = rt.alloc();
    // A native entry `size` of one input.
    let call: EntryCall = Box::new(
        alloc,
        |_inputs: &[i64]| -> i64
            ensures { result ≡ pos 0 }
        { 0 },
    )?;
    let entry = Entry::new(Text::of(alloc, b"size")?, 1, Formula::Number(0), call);
    let book = book_of(alloc, entry)?;
    let text = edited(alloc, TWICE)?;
    let answers: [&[u8]; 4] = [
        b"read fault conf.rc",
        b"read fault w.csv",
        b"read fault w.csv",
        b"accepted operations 24",
    ];
    for call in 0..answers.len() {
        let mut shelf = shelf_of(alloc, text.as_slice(), &["w.csv"])?;
        shelf.fail_on(call as u64);
        let found = answer_to(alloc, &book, &mut shelf, false)?;
        assert_eq!(rt; found.as_slice(), answers[call], "at load {call}");
    }
    Ok(())
}

/// A refusal that comes before the weights are asked for isn't hidden by a load that would fail, and a load that fails
/// comes before all that is judged later.
#[test]
fn loads_beside_refusals(rt: HostRuntime) -> Result<(), Fail> {
    let alloc = rt.alloc();
    // A native entry `size` of one input.
    let call: EntryCall = Box::new(
        alloc,
        |_inputs: &[i64]| -> i64
            ensures { result ≡ pos 0 }
        { 0 },
    )?;
    let entry = Entry::new(Text::of(alloc, b"size")?, 1, Formula::Number(0), call);
    let book = book_of(alloc, entry)?;
    let waiting = edited(alloc, &[(b"q flux W/m2 optional", b"q flux W/m2 init")])?;
    let mut shelf = shelf_of(alloc, waiting.as_slice(), &[])?;
    expect_answer(
        &rt,
        alloc,
        &book,
        &mut shelf,
        false,
        b"refused 53 Waiting ATM OCN",
    )?;
    let long = edited(
        alloc,
        &[(
            b"stopTime: 2000-01-01T03:00:00",
            b"stopTime: 2900-01-01T00:00:00",
        )],
    )?;
    let mut shelf = shelf_of(alloc, long.as_slice(), &[])?;
    expect_answer(&rt, alloc, &book, &mut shelf, false, b"read fault w.csv")?;
    Ok(())
}
