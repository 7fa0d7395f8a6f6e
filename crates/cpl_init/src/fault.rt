//! What can be wrong where an order is looked for.

ghost use Rattle.std.specs.Prelude.{◌≡◌};
ghost use Rattle.cpl_init.specs.declared.fault.InitFault.{InitFault};

use crate::components::Components;
use std::alloc::{AllocError, AllocFailed};

/// Why there is no order.
#[derive(Debug, Drop)]
pub enum InitFault {
    /// Some components wait for one another.
    Waiting {
        /// All components that wait, ascending: those that need one another in a ring, and those that
        /// need a component that waits.
        components: Components,
    },
    /// Out of memory.
    Memory,
}

impl From<AllocError> for InitFault {
    ghost from_gives = { λ _ fault. fault ≡ InitFault.Memory };

    fn from(_error: AllocError) -> InitFault {
        InitFault::Memory
    }
}

impl<T: Drop> From<AllocFailed<T>> for InitFault {
    ghost from_gives = { λ _ fault. fault ≡ InitFault.Memory };

    fn from(_failed: AllocFailed<T>) -> InitFault {
        InitFault::Memory
    }
}
