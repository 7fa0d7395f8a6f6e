//! Entries that are found and called, whose closures compute in other ways than their formulas.

ghost use Rattle.std.specs.Prelude.{◌≡◌, pos, ◌+ℤ◌, ◌-ℤ◌, IfOk, length, slice_index_or};
ghost use Rattle.std.specs.Bool.{OnTrue};
ghost use Rattle.std.specs.List.{All};
ghost use Rattle.cpl_base.specs.Numbers.{IsValue, clip};
ghost use Rattle.cpl_base.specs.Rounding.{product_of};
ghost use Rattle.cpl_entry.specs.Examples.{relax_tree};

use cpl_base::{GREATEST, Text, clip, mul};
use cpl_entry::{Entry, EntryBook, EntryCall, EntryFault, entry_examples};
use cpl_formula::Formula;
use sqlite_items::Boxed;
use std::alloc::{AllocError, Global};
use std::process::Abort;
use std::test::Fail;

/// The first input, and the third's share of what the second is above it: `a1 + a3 * (a2 - a1)`.
fn relax_formula(alloc: Global) -> Result<Formula, AllocError>
    ensures { IfOk result (λ tree. tree ≡ relax_tree) }
{
    let above = Formula::Less(
        Boxed::new(alloc, Formula::Input(1))?,
        Boxed::new(alloc, Formula::Input(0))?,
    );
    let share = Formula::Times(
        Boxed::new(alloc, Formula::Input(2))?,
        Boxed::new(alloc, above)?,
    );
    Ok(Formula::Plus(
        Boxed::new(alloc, Formula::Input(0))?,
        Boxed::new(alloc, share)?,
    ))
}

/// That value, by calls on values.
fn relaxed(from: i64, to: i64, share: i64) -> i64
    requires from { IsValue from }
    requires to { IsValue to }
    requires share { IsValue share }
    ensures { result ≡ clip (from +ℤ product_of share (clip (to -ℤ from))) }
{
    sum(from, mul(share, difference(to, from)))
}

/// A sum of values.
fn sum(a: i64, b: i64) -> i64
    requires a { IsValue a }
    requires b { IsValue b }
    ensures { result ≡ clip (a +ℤ b) }
{
    clip(a as i128 + b as i128)
}

/// A difference of values.
fn difference(a: i64, b: i64) -> i64
    requires a { IsValue a }
    requires b { IsValue b }
    ensures value { result ≡ clip (a -ℤ b) }
    ensures within { IsValue result }
{
    clip(a as i128 - b as i128)
}

/// Whether numbers are values.
fn are_values(numbers: &[i64]) -> bool
    ensures { OnTrue result (All IsValue numbers.now) }
{
    numbers
        .iter()
        .all(|number| number.unsigned_abs() <= GREATEST)
}

/// What the entry with a label answers at these inputs.
fn answer(
    rt: &impl Abort,
    book: &EntryBook,
    label: &[u8],
    inputs: &[i64],
) -> Result<i64, EntryFault> {
    assert!(rt; inputs.len() < 256);
    let place = book.find(label, inputs.len() as u8)?;
    let values = are_values(inputs);
    assert!(rt; values);
    Ok(book.call(place, inputs))
}

/// Asserts what is found in a book of `relax` alone, and its steps by halves from 0 units towards 10.
fn expect_relax(rt: &impl Abort, book: &EntryBook) -> Result<(), EntryFault> {
    let mut value = 0;
    for wanted in [5_000_000, 7_500_000, 8_750_000] {
        value = answer(rt, book, b"relax", &[value, 10_000_000, 500_000])?;
        assert_eq!(rt; value, wanted);
    }
    for have in [0, 1, 2, 4, 255] {
        assert_eq!(rt;
            book.find(b"relax", have),
            Err(EntryFault::InputsDiffer { have, want: 3 })
        );
    }
    for label in [
        b"".as_slice(),
        b"rela",
        b"relaxx",
        b"RELAX",
        b"relax ",
        b"xaler",
    ] {
        for have in [0, 2, 3] {
            assert_eq!(rt; book.find(label, have), Err(EntryFault::EntryUnknown));
        }
    }
    Ok(())
}

/// An entry that relaxes.
#[test]
fn relaxes(rt: HostRuntime) -> Result<(), Fail> {
    entry_examples();
    let alloc = rt.alloc();
    let call: EntryCall = Box::new(
        alloc,
        |inputs: &[i64]| -> i64
            requires three { length inputs.now ≡ 3 }
            requires values { All IsValue inputs.now }
            ensures { result ≡ clip (slice_index_or inputs.now 0 (pos 0)
                +ℤ product_of (slice_index_or inputs.now 2 (pos 0))
                (clip (slice_index_or inputs.now 1 (pos 0) -ℤ slice_index_or inputs.now 0 (pos 0)))) }
        { relaxed(inputs[0], inputs[1], inputs[2]) },
    )?;
    let mut entries = Vec::new(alloc);
    entries.push(Entry::new(Text::of(alloc, b"relax")?, 3, relax_formula(alloc)?, call))?;
    let book = EntryBook::new(alloc, entries)?;
    Ok(expect_relax(&rt, &book)?)
}

/// An entry of as many inputs as there may be, which answers the last of them.
#[test]
fn answers_the_last_input(rt: HostRuntime) -> Result<(), Fail> {
    let alloc = rt.alloc();
    let call: EntryCall = Box::new(
        alloc,
        |inputs: &[i64]| -> i64
            requires { length inputs.now ≡ 255 }
            ensures { result ≡ slice_index_or inputs.now 254 (pos 0) }
        { inputs[inputs.len() - 1] },
    )?;
    let mut entries = Vec::new(alloc);
    entries.push(Entry::new(Text::of(alloc, b"last")?, 255, Formula::Input(254), call))?;
    let book = EntryBook::new(alloc, entries)?;
    let mut inputs = [0; 255];
    inputs[254] = -7;
    assert_eq!(rt; answer(&rt, &book, b"last", &inputs)?, -7);
    Ok(())
}
