//! Why a configuration is too large.

ghost use Rattle.std.specs.Prelude.{◌≡◌};
ghost use Rattle.cpl_script.specs.declared.fault.SystemFault.{SystemFault};

use cpl_base::Memory;
use thiserror::Error;

/// Why parts make no system.
///
/// Source: this project's own.
#[derive(Clone, Copy, Debug, PartialEq, Eq, Error)]
pub enum SystemFault {
    /// The initialisation and the run together have more than 2^24 operations.
    #[error("{count} operations are more than 16777216")]
    TooManyOps {
        /// How many they have, capped at the greatest `u64`.
        count: u64,
    },
    /// Routes and halos together move more than 2^25 numbers when each is used once.
    #[error("routes and halos of {count} numbers are more than 33554432")]
    TooManyRoutes {
        /// How many numbers they move, capped at the greatest `u64`.
        count: u64,
    },
    /// Memory ran out.
    #[error("out of memory")]
    Memory,
}

impl From<Memory> for SystemFault {
    ghost from_gives = { λ _ fault. fault ≡ SystemFault.Memory };

    fn from(_memory: Memory) -> SystemFault {
        SystemFault::Memory
    }
}
