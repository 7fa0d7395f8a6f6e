//! Where a run's files come from.
//!
//! The shelves that exist stand in files of their own: one in memory, one over real files.

use std::alloc::Global;
use thiserror::Error;

/// Why a file wasn't loaded.
#[derive(Clone, Copy, Debug, PartialEq, Eq, Error)]
pub enum LoadFault {
    /// It couldn't be read, or there is no such file.
    #[error("the file could not be read")]
    Failed,
    /// It has more bytes than the limit.
    #[error("the file is longer than its limit")]
    TooLong,
    /// Want of memory.
    #[error("out of memory")]
    Memory,
}

/// Files by their names.
///
/// Contracts see what each name holds, where the shelf tells it, and a count of faults that never falls.
/// A shelf that can't know what it holds, as one over real files, tells nothing.
pub trait Shelf {
    ghost use Rattle.std.specs.Prelude.{◌≡◌, ◌≢◌, ◌⊎◌, ◌≤◌, ◌<◌, ℕ, List, length, Option, Some, None, IfOk, IfSome, IsErrOf, OnOk, OnErr};
    ghost use Rattle.cpl_base.specs.Outside.{Files, Rises};
    ghost use Rattle.cpl_base.specs.Loading.{IsLoaded, IsMissing, IsLonger};

    /// What each name holds, where it is told.
    ghost files: { Self → Option Files };

    /// How many faults there were so far.
    ghost faults: { Self → ℕ };

    /// The whole bytes of a file, of `limit` bytes at most.
    ///
    /// Errors: `Failed` where the file couldn't be read or isn't there, `TooLong` where it has more
    /// bytes than `limit`.
    fn load(&mut self, alloc: Global, name: &str, limit: usize) -> Result<Vec<u8>, LoadFault>
        // No load changes what is told.
        ensures told { files self.new ≡ files self.old }
        // Only a load that failed changes the count.
        ensures counts { faults self.old ≤ faults self.new }
        ensures quiet { (IsErrOf result LoadFault.Failed) ⊎ (faults self.new ≡ faults self.old) }
        ensures loaded { IfOk result (λ bytes. (length bytes.items ≤ limit) × IfSome (files self.old) (IsLoaded name.now bytes.items)) }
        // The count rose, or the shelf tells that it has no such file.
        ensures failed { IsErrOf result LoadFault.Failed → Rises (faults self.old) (faults self.new) ⊎ IsMissing name.now (files self.old) }
        ensures too_long { IsErrOf result LoadFault.TooLong → IfSome (files self.old) (IsLonger name.now limit) };
}
