//! What was read of a run sequence so far.

use crate::links::Links;
use crate::open_loops::OpenLoops;
use crate::read_loop::ReadLoop;

/// The connectors, the loops that are open, and the top loops that are closed.
#[derive(Drop)]
pub(crate) struct State {
    /// The connectors, in the order of their first lines.
    pub links: Links,
    /// The loops that are open.
    pub open: OpenLoops,
    /// The top loops that are closed, in their order.
    pub loops: Vec<ReadLoop>,
}
