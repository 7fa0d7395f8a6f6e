//! Why a dictionary refuses a call.

ghost use Rattle.std.specs.Prelude.{◌≡◌};
ghost use Rattle.cpl_dict.specs.declared.fault.DictFault.{DictFault};

use std::alloc::{AllocError, AllocFailed};

/// Why a name isn't added, or names aren't made synonyms. The call changed nothing.
#[derive(Clone, Copy, Debug, PartialEq, Eq)]
pub enum DictFault {
    /// The name is there already.
    NameTwice,
    /// One of the names isn't there.
    NameUnknown,
    /// Two of the names have unequal units.
    UnitsDiffer,
    /// Want of memory.
    Memory,
}

impl From<AllocError> for DictFault {
    ghost from_gives = { λ _ fault. fault ≡ DictFault.Memory };

    fn from(_error: AllocError) -> DictFault {
        DictFault::Memory
    }
}

impl<T: Drop> From<AllocFailed<T>> for DictFault {
    ghost from_gives = { λ _ fault. fault ≡ DictFault.Memory };

    fn from(_failed: AllocFailed<T>) -> DictFault {
        DictFault::Memory
    }
}
