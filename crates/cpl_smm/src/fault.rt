//! Why a file of weights is refused.

ghost use Rattle.std.specs.Prelude.{◌≡◌};
ghost use Rattle.cpl_smm.specs.declared.fault.WeightFault.{WeightFault};

use cpl_base::Memory;
use std::alloc::{AllocError, AllocFailed};
use thiserror::Error;

/// Why a file of weights is refused, and at which of its records, which are counted from 1.
///
/// Source: this project's own.
#[derive(Clone, Copy, Debug, PartialEq, Eq, Error)]
pub enum WeightFault {
    /// It hasn't just three fields: two numbers and a weight.
    #[error("record {n} isn't two numbers and a weight")]
    BadRecord {
        /// The record.
        n: u64,
    },
    /// A cell is 0 or above the number of cells.
    #[error("record {n} has a cell that isn't there")]
    IndexRange {
        /// The record.
        n: u64,
    },
    /// The weight is below -1000 or above 1000.
    #[error("record {n} has a weight that is out of range")]
    WeightRange {
        /// The record.
        n: u64,
    },
    /// Its two cells stood in an earlier record.
    #[error("record {n} has the two cells of an earlier one")]
    PairTwice {
        /// The record.
        n: u64,
    },
    /// It is past the greatest number of records.
    #[error("record {n} is one too many")]
    TooManyWeights {
        /// The record.
        n: u64,
    },
    /// Out of memory.
    #[error("out of memory")]
    Memory,
}

impl From<Memory> for WeightFault {
    ghost from_gives = { λ _ fault. fault ≡ WeightFault.Memory };

    fn from(_memory: Memory) -> WeightFault {
        WeightFault::Memory
    }
}

impl From<AllocError> for WeightFault {
    ghost from_gives = { λ _ fault. fault ≡ WeightFault.Memory };

    fn from(_error: AllocError) -> WeightFault {
        WeightFault::Memory
    }
}

impl<T: Drop> From<AllocFailed<T>> for WeightFault {
    ghost from_gives = { λ _ fault. fault ≡ WeightFault.Memory };

    fn from(_failed: AllocFailed<T>) -> WeightFault {
        WeightFault::Memory
    }
}
