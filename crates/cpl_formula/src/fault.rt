//! Why a text isn't read: its fault, and within it why reading stops at a token.

ghost use Rattle.std.specs.Prelude.{◌≡◌};
ghost use Rattle.cpl_formula.specs.declared.fault.FormulaFault.TheVariants as faults;
ghost use Rattle.cpl_formula.specs.declared.fault.Stop.TheVariants as stops;

use cpl_base::Memory;
use std::alloc::{AllocError, AllocFailed};
use thiserror::Error;

/// Why a text wasn't read. Places count the text's bytes from 0.
#[derive(Clone, Copy, Debug, PartialEq, Eq, Error)]
pub enum FormulaFault {
    /// No formula goes on with the token here, or the text ends too early and this is its length.
    #[error("no formula goes on so at byte {at}")]
    Syntax { at: u32 },
    /// A number here has more than six places, or is past the range of values.
    #[error("the number at byte {at} is no value")]
    BadNumber { at: u32 },
    /// A name here stands for nothing, or has brackets and is no field's.
    #[error("the name at byte {at} stands for nothing")]
    NameUnknown { at: u32 },
    /// An offset here isn't from -2 to 2.
    #[error("the neighbour at byte {at} is too far away")]
    FarNeighbour { at: u32 },
    /// More than 32 `(` are open, more than 32 minus signs stand in a row, or the depth is above 32.
    #[error("the formula is too deep")]
    DeepFormula,
    /// Want of memory.
    #[error("out of memory")]
    Memory,
}

impl From<Memory> for FormulaFault {
    ghost from_gives = { λ _ fault. fault ≡ faults.Memory };

    fn from(_memory: Memory) -> FormulaFault {
        FormulaFault::Memory
    }
}

impl From<AllocError> for FormulaFault {
    ghost from_gives = { λ _ fault. fault ≡ faults.Memory };

    fn from(_error: AllocError) -> FormulaFault {
        FormulaFault::Memory
    }
}

impl<T: Drop> From<AllocFailed<T>> for FormulaFault {
    ghost from_gives = { λ _ fault. fault ≡ faults.Memory };

    fn from(_failed: AllocFailed<T>) -> FormulaFault {
        FormulaFault::Memory
    }
}

/// Why no formula goes on with a token, or want of memory.
#[derive(Clone, Copy)]
pub enum Stop {
    Syntax,
    BadNumber,
    NameUnknown,
    /// An offset that is too far, behind a minus or not.
    FarNeighbour { minus: bool },
    Memory,
}

impl From<Memory> for Stop {
    ghost from_gives = { λ _ stop. stop ≡ stops.Memory };

    fn from(_memory: Memory) -> Stop {
        Stop::Memory
    }
}

impl From<AllocError> for Stop {
    ghost from_gives = { λ _ stop. stop ≡ stops.Memory };

    fn from(_error: AllocError) -> Stop {
        Stop::Memory
    }
}

impl<T: Drop> From<AllocFailed<T>> for Stop {
    ghost from_gives = { λ _ stop. stop ≡ stops.Memory };

    fn from(_failed: AllocFailed<T>) -> Stop {
        Stop::Memory
    }
}
