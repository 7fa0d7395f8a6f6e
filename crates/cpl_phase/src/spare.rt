//! What new values are worked out in.

use cpl_base::Many;
use cpl_field::Field;
use cpl_rule::Room;

/// Fields, numbers and room in which one operation of a component on a block after another is worked out.
///
/// Source: this project's own.
#[derive(Drop)]
pub struct Spare {
    /// Fields of the block, for new values.
    pub fields: Many<Field>,
    /// A number for each cell of the block.
    pub cells: Field,
    /// The room in which rules are worked out.
    pub room: Room,
}
