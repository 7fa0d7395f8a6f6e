//! The definitions of entries and books, evaluated on examples; an entry that is made, found and called; and what
//! threads may do with a book.

ghost use Rattle.std.specs.Prelude.{◌≡◌, ℤ, pos, ◌-ℤ◌, IfOk, length, slice_index_or, unsigned_abs};
ghost use Rattle.std.specs.List.{All};
ghost use Rattle.cpl_base.specs.Numbers.{IsValue, clip};
ghost use Rattle.cpl_entry.specs.Examples.{EntryExamples};

use crate::book::EntryBook;
use crate::entry::{Entry, EntryCall};
use crate::fault::EntryFault;
use cpl_base::{Text, clip};
use cpl_formula::Formula;
use sqlite_items::Boxed;
use std::alloc::Global;

/// Books that entries make and don't, entries that are found and aren't, and their values.
///
/// Source: this project's own.
pub fn entry_examples()
    ensures entries { EntryExamples }
{}

/// How far two values are apart, by an entry whose formula takes the size of a difference and whose closure
/// compares them instead.
fn distance(alloc: Global, a: i64, b: i64) -> Result<i64, EntryFault>
    requires a { IsValue a }
    requires b { IsValue b }
    ensures { IfOk result (λ apart. apart ≡ pos (unsigned_abs (clip (a -ℤ b)))) }
{
    let difference = Formula::Less(
        Boxed::new(alloc, Formula::Input(0))?,
        Boxed::new(alloc, Formula::Input(1))?,
    );
    let formula = Formula::Abs(Boxed::new(alloc, difference)?);
    let call: EntryCall = Box::new(
        alloc,
        |inputs: &[i64]| -> i64
            requires two { length inputs.now ≡ 2 }
            requires values { All IsValue inputs.now }
            ensures { result ≡ pos (unsigned_abs (clip (slice_index_or inputs.now 0 (pos 0)
                -ℤ slice_index_or inputs.now 1 (pos 0)))) }
        { apart(inputs[0], inputs[1]) },
    )?;
    let entry = Entry::new(Text::of(alloc, b"distance")?, 2, formula, call);
    let mut entries = Vec::new(alloc);
    entries.push(entry)?;
    let book = EntryBook::new(alloc, entries)?;
    let place = book.find(b"distance", 2)?;
    Ok(book.call(place, &[a, b]))
}

/// How far two values are apart.
fn apart(a: i64, b: i64) -> i64
    requires a { IsValue a }
    requires b { IsValue b }
    ensures { result ≡ pos (unsigned_abs (clip (a -ℤ b))) }
{
    if a < b {
        clip(b as i128 - a as i128)
    } else {
        clip(a as i128 - b as i128)
    }
}

/// Threads may own a book, and lend it to others.
fn lent_to_threads(book: &EntryBook) -> &EntryBook {
    let _lent = shared(&book);
    shared(book)
}

/// A value that threads may own and share.
fn shared<T: Send + Sync>(value: &T) -> &T {
    value
}
