//! Why a text has no lines.

ghost use Rattle.std.specs.Prelude.{◌≡◌};
ghost use Rattle.cpl_text.specs.declared.fault.TextFault.{TextFault};

use std::alloc::{AllocError, AllocFailed};

/// Why a text has no lines.
#[derive(Clone, Copy, Debug, PartialEq, Eq)]
pub enum TextFault {
    /// The first line with a byte outside comments that is neither a tab nor from the space to `~`.
    NotAscii {
        /// The number of the line, counted from 1.
        line: u32,
    },
    /// Want of memory.
    Memory,
}

impl From<AllocError> for TextFault {
    ghost from_gives = { λ _ fault. fault ≡ TextFault.Memory };

    fn from(_error: AllocError) -> TextFault {
        TextFault::Memory
    }
}

impl<T: Drop> From<AllocFailed<T>> for TextFault {
    ghost from_gives = { λ _ fault. fault ≡ TextFault.Memory };

    fn from(_failed: AllocFailed<T>) -> TextFault {
        TextFault::Memory
    }
}
