//! Why the head of a file, or one of its tables, isn't accepted.

ghost use Rattle.std.specs.Prelude.{◌≡◌};
ghost use Rattle.cpl_head.specs.declared.fault.HeadFault.{HeadFault};
ghost use Rattle.cpl_head.specs.declared.fault.TableFault.{TableFault};

use cpl_base::{Memory, Text};
use std::alloc::{AllocError, AllocFailed};
use thiserror::Error;

/// Why what a file says of a run as a whole isn't accepted. `line` is the number of a line of the file, from 1.
///
/// Source: this project's own.
#[derive(Debug, Drop, Error)]
pub enum HeadFault {
    /// A label that must be there isn't.
    #[error("a label is missing")]
    MissingLabel {
        /// The label, without colons.
        label: Text,
    },
    /// Values that don't have their form, or a component that is listed twice.
    #[error("line {line} doesn't have its form")]
    BadValue {
        line: u32,
    },
    /// More than 32 components.
    #[error("{count} components are too many")]
    TooManyComponents {
        /// How many there are.
        count: u64,
    },
    /// A word that isn't of the form of a time.
    #[error("the time at line {line} doesn't have its form")]
    BadTime {
        line: u32,
    },
    /// A time in the year 0.
    #[error("the time at line {line} is in the year 0")]
    YearRange {
        line: u32,
    },
    /// A time of a day that its month doesn't have.
    #[error("the month at line {line} has no such day")]
    NoSuchDay {
        line: u32,
    },
    /// A stop time that isn't after the start.
    #[error("the stop at line {line} isn't after the start")]
    StopNotAfter {
        line: u32,
    },
    /// Out of memory.
    #[error("out of memory")]
    Memory,
}

impl From<Memory> for HeadFault {
    ghost from_gives = { λ _ fault. fault ≡ HeadFault.Memory };

    fn from(_memory: Memory) -> HeadFault {
        HeadFault::Memory
    }
}

impl From<AllocError> for HeadFault {
    ghost from_gives = { λ _ fault. fault ≡ HeadFault.Memory };

    fn from(_error: AllocError) -> HeadFault {
        HeadFault::Memory
    }
}

impl<T: Drop> From<AllocFailed<T>> for HeadFault {
    ghost from_gives = { λ _ fault. fault ≡ HeadFault.Memory };

    fn from(_failed: AllocFailed<T>) -> HeadFault {
        HeadFault::Memory
    }
}

/// Why the table of the dictionary or of the alarms isn't accepted. `line` is the number of the faulty row's
/// line in the file, from 1.
///
/// Source: this project's own.
#[derive(Clone, Copy, Debug, PartialEq, Eq, Error)]
pub enum TableFault {
    /// A row that doesn't have its form, or an alarm whose name another has, or one too many.
    #[error("line {line} doesn't have its form")]
    BadValue { line: u32 },
    /// A standard name that is there already.
    #[error("line {line} has a standard name that is there already")]
    NameTwice { line: u32 },
    /// A synonym that isn't in the dictionary.
    #[error("line {line} names what isn't in the dictionary")]
    NameUnknown { line: u32 },
    /// Synonyms of unequal units.
    #[error("the synonyms at line {line} have unequal units")]
    UnitsDiffer { line: u32 },
    /// Out of memory.
    #[error("out of memory")]
    Memory,
}

impl From<Memory> for TableFault {
    ghost from_gives = { λ _ fault. fault ≡ TableFault.Memory };

    fn from(_memory: Memory) -> TableFault {
        TableFault::Memory
    }
}

impl From<AllocError> for TableFault {
    ghost from_gives = { λ _ fault. fault ≡ TableFault.Memory };

    fn from(_error: AllocError) -> TableFault {
        TableFault::Memory
    }
}

impl<T: Drop> From<AllocFailed<T>> for TableFault {
    ghost from_gives = { λ _ fault. fault ≡ TableFault.Memory };

    fn from(_failed: AllocFailed<T>) -> TableFault {
        TableFault::Memory
    }
}
