//! Where a cursor stands at one level of the tree of loops.

use crate::op::Op;

/// Where a cursor stands in a loop: in which round, and at which element of its body. In a run it stands
/// in a round alone, which is the number of the substep.
#[derive(Clone, Copy)]
pub(crate) struct Frame {
    /// The place of the element in the body.
    pub place: usize,
    /// The number of the round, from 0.
    pub round: u64,
}

impl Frame {
    /// At the beginning.
    pub(crate) const START: Frame = Frame { place: 0, round: 0 };
}

/// A turn of a cursor: at a level it comes to stand so, and below it at the beginning.
#[derive(Clone, Copy)]
pub(crate) struct Turn {
    /// The level, from 0 at the outermost.
    pub level: usize,
    /// How it comes to stand there.
    pub frame: Frame,
}

/// An operation, with the turn to the next one, if there is one.
#[derive(Clone, Copy)]
pub(crate) struct Step {
    /// The operation.
    pub op: Op,
    /// The turn.
    pub turn: Option<Turn>,
}
