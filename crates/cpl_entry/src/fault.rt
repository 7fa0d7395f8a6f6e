//! Why entries make no book, and why a book has no entry for a call.

ghost use Rattle.std.specs.Prelude.{◌≡◌};
ghost use Rattle.cpl_entry.specs.declared.fault.EntryFault.{EntryFault};

use cpl_base::Memory;
use std::alloc::{AllocError, AllocFailed};
use thiserror::Error;

/// Why entries make no book, and why a book has no entry for a call.
///
/// Source: this project's own.
#[derive(Clone, Copy, Debug, PartialEq, Eq, Error)]
pub enum EntryFault {
    /// Two entries have equal labels.
    #[error("the label of entry {index} stands before it")]
    LabelTwice {
        /// The least place, counted from 0, whose label stands before it.
        index: u16,
    },
    /// No entry has the label.
    #[error("no entry has this label")]
    EntryUnknown,
    /// The entry takes another number of inputs.
    #[error("{have} inputs for an entry that takes {want}")]
    InputsDiffer {
        /// How many inputs the call has.
        have: u8,
        /// How many inputs the entry takes.
        want: u8,
    },
    /// Out of memory.
    #[error("out of memory")]
    Memory,
}

impl From<Memory> for EntryFault {
    ghost from_gives = { λ _ fault. fault ≡ EntryFault.Memory };

    fn from(_memory: Memory) -> EntryFault {
        EntryFault::Memory
    }
}

impl From<AllocError> for EntryFault {
    ghost from_gives = { λ _ fault. fault ≡ EntryFault.Memory };

    fn from(_error: AllocError) -> EntryFault {
        EntryFault::Memory
    }
}

impl<T: Drop> From<AllocFailed<T>> for EntryFault {
    ghost from_gives = { λ _ fault. fault ≡ EntryFault.Memory };

    fn from(_failed: AllocFailed<T>) -> EntryFault {
        EntryFault::Memory
    }
}
