//! Where and when rules are carried out.

use crate::moment::Moment;
use cpl_block::Frame;

/// A block of a component's grid, and the moment at which rules read.
///
/// Source: this project's own.
#[derive(Clone, Copy)]
pub struct Scene<'a> {
    /// The block.
    pub frame: Frame,
    /// How many fields the component has.
    pub fields: u16,
    /// The moment.
    pub moment: Moment<'a>,
}
