//! Why there is no system.

ghost use Rattle.std.specs.Prelude.{◌≡◌};
ghost use Rattle.cpl_build.specs.Faults.{build_fault};
ghost use Rattle.cpl_build.specs.declared.fault.BuildFault.{BuildFault};
ghost use Rattle.cpl_build.specs.declared.fault.Rejection.{Rejection};

use cpl_base::{Memory, Text};
use cpl_report::Refusal;
use std::alloc::{AllocError, AllocFailed};

/// Why a configuration makes no system.
///
/// Source: this project's own.
#[derive(Drop)]
pub enum BuildFault {
    /// It isn't accepted.
    Refused(Refusal),
    /// A file couldn't be read.
    ReadFault {
        /// The file's name.
        name: Text,
    },
    /// Out of memory.
    Memory,
}

/// Why a step that loads nothing ends without what it should give.
#[derive(Drop)]
pub(crate) enum Rejection {
    /// What it was given isn't accepted.
    Refused(Refusal),
    /// Out of memory.
    Memory,
}

impl From<Rejection> for BuildFault {
    ghost from_gives = { λ rejection fault. fault ≡ build_fault rejection };

    fn from(rejection: Rejection) -> BuildFault {
        match rejection {
            Rejection::Refused(refusal) => BuildFault::Refused(refusal),
            Rejection::Memory => BuildFault::Memory,
        }
    }
}

impl From<Memory> for BuildFault {
    ghost from_gives = { λ _ fault. fault ≡ BuildFault.Memory };

    fn from(_memory: Memory) -> BuildFault {
        BuildFault::Memory
    }
}

impl From<AllocError> for BuildFault {
    ghost from_gives = { λ _ fault. fault ≡ BuildFault.Memory };

    fn from(_error: AllocError) -> BuildFault {
        BuildFault::Memory
    }
}

impl<T: Drop> From<AllocFailed<T>> for BuildFault {
    ghost from_gives = { λ _ fault. fault ≡ BuildFault.Memory };

    fn from(_failed: AllocFailed<T>) -> BuildFault {
        BuildFault::Memory
    }
}

impl From<Memory> for Rejection {
    ghost from_gives = { λ _ fault. fault ≡ Rejection.Memory };

    fn from(_memory: Memory) -> Rejection {
        Rejection::Memory
    }
}

impl From<AllocError> for Rejection {
    ghost from_gives = { λ _ fault. fault ≡ Rejection.Memory };

    fn from(_error: AllocError) -> Rejection {
        Rejection::Memory
    }
}

impl<T: Drop> From<AllocFailed<T>> for Rejection {
    ghost from_gives = { λ _ fault. fault ≡ Rejection.Memory };

    fn from(_failed: AllocFailed<T>) -> Rejection {
        Rejection::Memory
    }
}
