//! Why there is no route.

ghost use Rattle.std.specs.Prelude.{◌≡◌};
ghost use Rattle.cpl_route.specs.declared.fault.RouteFault.{RouteFault};

use cpl_base::Memory;
use thiserror::Error;

/// Why there is no route between two grids.
///
/// Source: this project's own.
#[derive(Clone, Copy, Debug, PartialEq, Eq, Error)]
pub enum RouteFault {
    /// The grids have unequal numbers of cells.
    #[error("{src} cells can't be redistributed onto {dst}")]
    SizeDiffers {
        /// How many cells there are to be sent.
        src: u32,
        /// How many cells are to be filled.
        dst: u32,
    },
    /// Out of memory.
    #[error("out of memory")]
    Memory,
}

impl From<Memory> for RouteFault {
    ghost from_gives = { λ _ fault. fault ≡ RouteFault.Memory };

    fn from(_memory: Memory) -> RouteFault {
        RouteFault::Memory
    }
}
