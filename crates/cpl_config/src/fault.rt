//! Why the lines of a resource file are no items.

ghost use Rattle.std.specs.Prelude.{◌≡◌};
ghost use Rattle.cpl_config.specs.declared.fault.ItemFault.{ItemFault};

use cpl_base::Memory;
use std::alloc::AllocError;

/// Why the lines of a file are no items: that of the first faulty line.
#[derive(Clone, Copy, Debug, PartialEq, Eq)]
pub enum ItemFault {
    /// Outside of tables, a line that is neither a value item nor the opening of a table.
    BadLine {
        /// The number of the line.
        line: u32,
    },
    /// Outside of tables, a line that begins with the word `::`.
    StrayClose {
        /// The number of the line.
        line: u32,
    },
    /// A value item or a table whose label stood before in its kind.
    LabelTwice {
        /// The number of the second line.
        line: u32,
    },
    /// A table that is open at the end.
    Unclosed {
        /// The number of the line that opens it.
        line: u32,
    },
    /// Want of memory.
    Memory,
}

impl From<Memory> for ItemFault {
    ghost from_gives = { λ _ fault. fault ≡ ItemFault.Memory };

    fn from(_memory: Memory) -> ItemFault {
        ItemFault::Memory
    }
}

impl From<AllocError> for ItemFault {
    ghost from_gives = { λ _ fault. fault ≡ ItemFault.Memory };

    fn from(_error: AllocError) -> ItemFault {
        ItemFault::Memory
    }
}
