//! A loop while it is read.

ghost use Rattle.std.specs.Prelude.{◌≡◌, []};

use cpl_sequence::Element;
use sqlite_items::Items;
use std::alloc::Global;

/// A loop as its row opens it, with what stands in it so far.
#[derive(Drop)]
pub(crate) struct ReadLoop {
    /// The number of the row that opens it.
    pub line: u32,
    /// Its step in seconds.
    pub step: u64,
    /// How long it lasts in seconds, where its row says so.
    pub given: Option<u64>,
    /// What stands in it.
    pub body: Items<Element>,
}

impl ReadLoop {
    /// A loop in which nothing stands yet.
    pub(crate) fn empty(alloc: Global, line: u32, step: u64, given: Option<u64>) -> ReadLoop
        ensures { result ≡ record { line = line; step = step; given = given; body = [] } }
    {
        ReadLoop {
            line,
            step,
            given,
            body: Items::new(alloc),
        }
    }
}
