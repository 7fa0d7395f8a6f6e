//! The signs and the labels of entries that are to make a book.

ghost use Rattle.std.specs.Prelude.{◌≡◌, ◌<◌, ◌^◌, IfOk, length, map};
ghost use Rattle.cpl_base.specs.Gives.{Gives};
ghost use Rattle.cpl_entry.specs.Entries.{sign_of};
ghost use Rattle.cpl_entry.specs.Kept.{distinct_labels};
ghost use Rattle.cpl_entry.specs.Views.{entry_of};

use crate::entry::Entry;
use crate::fault::EntryFault;
use crate::labels::Labels;
use cpl_base::Memory;
use cpl_formula::EntrySign;
use std::alloc::Global;

/// A sign of each entry.
pub(crate) fn signs_of(alloc: Global, entries: &[Entry]) -> Result<Vec<EntrySign>, Memory>
    ensures { IfOk result (λ signs. signs.items ≡ map (λ entry. sign_of (entry_of entry)) entries.now) }
{
    let mut signs = Vec::with_capacity(alloc, entries.len())?;
    for entry in entries {
        signs.push(entry.sign(alloc)?)?;
    }
    Ok(signs)
}

/// The labels of the signs, where they are distinct.
pub(crate) fn labels_of(alloc: Global, signs: &[EntrySign]) -> Result<Labels, EntryFault>
    requires { length signs.now < 2 ^ 16 }
    ensures { Gives EntryFault.Memory (λ labels. labels) result (distinct_labels (map (λ sign. sign.label) signs.now)) }
{
    let mut labels = Labels::new(alloc);
    for (index, sign) in signs.iter().enumerate() {
        if !labels.add(alloc, sign.label.bytes())? {
            return Err(EntryFault::LabelTwice {
                index: index as u16,
            });
        }
    }
    Ok(labels)
}
