//! Why the bytes of a file weren't read as a system.

ghost use Rattle.std.specs.Prelude.{◌≡◌};
ghost use Rattle.cpl_driver.specs.declared.unread.Unread.{Unread};
ghost use Rattle.cpl_driver.specs.Unreads.{unread_of};

use cpl_base::Memory;
use cpl_formula::FormulaFault;
use std::alloc::{AllocError, AllocFailed};

/// Why the bytes of a file weren't read as a system.
#[derive(Clone, Copy, Debug, PartialEq, Eq)]
pub enum Unread {
    /// They are of a form that isn't built yet.
    NotYetBuilt,
    /// Want of memory.
    Memory,
}

impl From<Memory> for Unread {
    ghost from_gives = { λ _ unread. unread ≡ Unread.Memory };

    fn from(_memory: Memory) -> Unread {
        Unread::Memory
    }
}

impl From<FormulaFault> for Unread {
    ghost from_gives = { λ fault unread. unread ≡ unread_of fault };

    fn from(fault: FormulaFault) -> Unread {
        match fault {
            FormulaFault::Memory => Unread::Memory,
            _ => Unread::NotYetBuilt,
        }
    }
}

impl From<AllocError> for Unread {
    ghost from_gives = { λ _ unread. unread ≡ Unread.Memory };

    fn from(_error: AllocError) -> Unread {
        Unread::Memory
    }
}

impl<T: Drop> From<AllocFailed<T>> for Unread {
    ghost from_gives = { λ _ unread. unread ≡ Unread.Memory };

    fn from(_failed: AllocFailed<T>) -> Unread {
        Unread::Memory
    }
}
