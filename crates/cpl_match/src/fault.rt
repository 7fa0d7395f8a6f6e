//! Why imports aren't matched.

ghost use Rattle.std.specs.Prelude.{◌≡◌};
ghost use Rattle.cpl_match.specs.declared.fault.MatchFault.{MatchFault};

use cpl_base::Memory;
use std::alloc::{AllocError, AllocFailed};
use thiserror::Error;

/// Why an import isn't matched.
///
/// Source: this project's own.
#[derive(Clone, Copy, Debug, PartialEq, Eq, Error)]
pub enum MatchFault {
    /// Two or more exports fit an import best.
    #[error("more than one export fits field {field} of component {dst} best")]
    Ambiguous {
        /// The component of the import.
        dst: u8,
        /// Its field.
        field: u16,
        /// The first of these exports: its component and its field.
        first: (u8, u16),
        /// The second.
        second: (u8, u16),
    },
    /// No export fits an import that isn't optional.
    #[error("no export fits field {field} of component {dst}")]
    Unmatched {
        /// The component of the import.
        dst: u8,
        /// Its field.
        field: u16,
    },
    /// A redistribution between components of unequal numbers of cells.
    #[error("components {src} and {dst} have unequal numbers of cells")]
    SizeDiffers {
        /// The component of the export.
        src: u8,
        /// The component of the import.
        dst: u8,
    },
    /// Out of memory.
    #[error("out of memory")]
    Memory,
}

impl From<Memory> for MatchFault {
    ghost from_gives = { λ _ fault. fault ≡ MatchFault.Memory };

    fn from(_memory: Memory) -> MatchFault {
        MatchFault::Memory
    }
}

impl From<AllocError> for MatchFault {
    ghost from_gives = { λ _ fault. fault ≡ MatchFault.Memory };

    fn from(_error: AllocError) -> MatchFault {
        MatchFault::Memory
    }
}

impl<T: Drop> From<AllocFailed<T>> for MatchFault {
    ghost from_gives = { λ _ fault. fault ≡ MatchFault.Memory };

    fn from(_failed: AllocFailed<T>) -> MatchFault {
        MatchFault::Memory
    }
}
