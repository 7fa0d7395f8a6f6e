//! A book of native entries, found by their labels.

ghost use Rattle.std.specs.Prelude.{map};
ghost use Rattle.cpl_entry.specs.Kept.{IsKept};
ghost use Rattle.cpl_entry.specs.Views.{entry_of};

use crate::entry::Entry;
use crate::fault::EntryFault;
use crate::labels::Labels;
use crate::signing::{labels_of, signs_of};
use cpl_formula::EntrySign;
use std::alloc::Global;

/// Entries with distinct labels. Contracts see the list of their labels, numbers of inputs and formulas
/// (`entries_of`).
#[derive(Drop)]
pub struct EntryBook {
    entries: Vec<Entry>,
    signs: Vec<EntrySign>,
    labels: Labels,
    ghost kept: { IsKept (map entry_of entries.items) signs.items labels },
}

impl EntryBook {
    ghost use Rattle.std.specs.Prelude.{◌≡◌, ◌<◌, ◌^◌, IfOk, Some, length, map};
    ghost use Rattle.std.specs.List.{All};
    ghost use Rattle.cpl_base.specs.Gives.{Gives};
    ghost use Rattle.cpl_base.specs.Numbers.{IsValue};
    ghost use Rattle.cpl_entry.specs.Books.{entries_of};
    ghost use Rattle.cpl_entry.specs.Entries.{IsBook, book_of, entry_for, inputs_at, signs_of, value_at};
    ghost use Rattle.cpl_entry.specs.Views.{entry_of};

    /// A book of these entries, in their order. Entries that make no book are dropped.
    ///
    /// Errors: `LabelTwice` exactly where two labels are equal, with the least place whose label stands before it;
    /// `Memory`.
    ///
    /// Source: this project's own.
    pub fn new(alloc: Global, entries: Vec<Entry>) -> Result<EntryBook, EntryFault>
        requires { length entries.items < 2 ^ 16 }
        ensures { Gives EntryFault.Memory entries_of result (book_of (map entry_of entries.items)) }
    {
        let signs = signs_of(alloc, entries.as_slice())?;
        let labels = labels_of(alloc, signs.as_slice())?;
        Ok(EntryBook {
            entries,
            signs,
            labels,
        })
    }

    /// The place of the entry with a label, counted from 0, for a call with so many inputs. Takes no memory.
    ///
    /// Errors: `EntryUnknown` exactly where no entry has the label; else `InputsDiffer` exactly where the entry takes
    /// another number of inputs, with that of the call (`have`) and that of the entry (`want`).
    ///
    /// Source: this project's own.
    pub fn find(&self, label: &[u8], inputs: u8) -> Result<u16, EntryFault>
        ensures answer { result ≡ entry_for (entries_of self.now) label.now inputs }
        ensures there { IfOk result (λ entry. inputs_at (entries_of self.now) entry ≡ Some inputs) }
    {
        let Some(place) = self.labels.place(label) else {
            return Err(EntryFault::EntryUnknown);
        };
        let want = self.signs[place].inputs;
        if want == inputs {
            Ok(place as u16)
        } else {
            Err(EntryFault::InputsDiffer { have: inputs, want })
        }
    }

    /// The labels of the entries and how many inputs they take, in their order, lent.
    ///
    /// Source: this project's own.
    pub fn signs(&self) -> &[EntrySign]
        ensures value { result.now ≡ signs_of (entries_of self.now) }
        ensures book { IsBook (entries_of self.now) }
    {
        self.signs.as_slice()
    }

    /// The value, in millionths, of an entry's formula at the values of its inputs, in millionths: as many as the
    /// entry takes. It is what the entry's closure answers. Takes no memory.
    ///
    /// Source: this project's own.
    #[inline]
    pub fn call(&self, entry: u16, inputs: &[i64]) -> i64
        requires inputs { inputs_at (entries_of self.now) entry ≡ Some (length inputs.now) }
        requires values { All IsValue inputs.now }
        ensures value { value_at (entries_of self.now) entry inputs.now ≡ Some result }
        ensures within { IsValue result }
    {
        self.entries[entry as usize].call(inputs)
    }
}
