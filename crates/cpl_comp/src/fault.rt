//! Why a component isn't accepted.

ghost use Rattle.std.specs.Prelude.{◌≡◌};
ghost use Rattle.cpl_comp.specs.declared.fault.CompFault.{CompFault};

use cpl_base::{Memory, Text};
use std::alloc::{AllocError, AllocFailed};
use thiserror::Error;

/// Why a component isn't accepted. `line` is the number of a line of the file, from 1; `at` counts the bytes
/// of a rule's text from 0.
///
/// Source: this project's own.
#[derive(Debug, Drop, Error)]
pub enum CompFault {
    /// Values or a row that don't have their form, or that go against the rules on such a row.
    #[error("line {line} doesn't have its form")]
    BadValue {
        line: u32,
    },
    /// A list of PETs whose lower bound is above the upper, or whose upper bound is above 63.
    #[error("line {line} names PETs that can't be")]
    PetOutOfRange {
        line: u32,
    },
    /// A field whose name another field of the component has.
    #[error("the field at line {line} stands twice")]
    FieldTwice {
        line: u32,
    },
    /// A standard name that the dictionary doesn't have.
    #[error("the standard name at line {line} isn't in the dictionary")]
    StandardUnknown {
        line: u32,
    },
    /// Units that aren't those of the standard name.
    #[error("the units at line {line} aren't those of the standard name")]
    UnitsDiffer {
        line: u32,
    },
    /// More than 64 fields.
    #[error("{count} fields are too many")]
    TooManyFields {
        /// How many there are.
        count: u64,
    },
    /// A phase that is named twice.
    #[error("line {line} names a phase twice")]
    PhaseTwice {
        line: u32,
    },
    /// More than 16 phases.
    #[error("{count} phases are too many")]
    TooManyPhases {
        /// How many there are.
        count: u64,
    },
    /// The component has no grid.
    #[error("there is no grid")]
    NoGrid,
    /// A grid of more than 2^20 cells.
    #[error("the grid at line {line} has too many cells")]
    TooManyCells {
        line: u32,
    },
    /// Not as many blocks as the component has PETs.
    #[error("{blocks} blocks for {pets} PETs")]
    BlocksMismatch {
        /// How many blocks there are.
        blocks: u64,
        /// How many PETs the component has.
        pets: u8,
    },
    /// A phase without its table.
    #[error("a table is missing")]
    MissingLabel {
        /// The table's label, without colons.
        label: Text,
    },
    /// A name that stands for nothing, in a row or in its rule.
    #[error("line {line} names what isn't there")]
    NameUnknown {
        line: u32,
    },
    /// A rule with which no formula, or no call, goes on.
    #[error("the rule at line {line} can't be read at byte {at}")]
    Syntax {
        line: u32,
        at: u32,
    },
    /// A number that is no value.
    #[error("the number at line {line}, byte {at}, is no value")]
    BadNumber {
        line: u32,
        at: u32,
    },
    /// An offset that isn't from -2 to 2.
    #[error("the neighbour at line {line}, byte {at}, is too far away")]
    FarNeighbour {
        line: u32,
        at: u32,
    },
    /// A formula that is too deep.
    #[error("the formula at line {line} is too deep")]
    DeepFormula {
        line: u32,
    },
    /// A native rule whose label no entry has.
    #[error("line {line} calls an entry that isn't there")]
    EntryUnknown {
        line: u32,
    },
    /// A native rule with another number of arguments than its entry has inputs.
    #[error("the call at line {line} has another number of arguments than its entry has inputs")]
    InputsDiffer {
        line: u32,
    },
    /// Out of memory.
    #[error("out of memory")]
    Memory,
}

impl From<Memory> for CompFault {
    ghost from_gives = { λ _ fault. fault ≡ CompFault.Memory };

    fn from(_memory: Memory) -> CompFault {
        CompFault::Memory
    }
}

impl From<AllocError> for CompFault {
    ghost from_gives = { λ _ fault. fault ≡ CompFault.Memory };

    fn from(_error: AllocError) -> CompFault {
        CompFault::Memory
    }
}

impl<T: Drop> From<AllocFailed<T>> for CompFault {
    ghost from_gives = { λ _ fault. fault ≡ CompFault.Memory };

    fn from(_failed: AllocFailed<T>) -> CompFault {
        CompFault::Memory
    }
}
