//! Want of memory, the one answer that no contract ties to a cause.

use std::alloc::{AllocError, AllocFailed};

/// Memory ran out, and the call changed nothing that it was lent.
#[derive(Clone, Copy, Debug, PartialEq, Eq)]
pub struct Memory;

impl From<AllocError> for Memory {
    fn from(_error: AllocError) -> Memory {
        Memory
    }
}

impl<T: Drop> From<AllocFailed<T>> for Memory {
    fn from(_failed: AllocFailed<T>) -> Memory {
        Memory
    }
}
