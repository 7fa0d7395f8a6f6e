//! The room in which rules are worked out.

ghost use Rattle.std.specs.Prelude.{◌≡◌, ◌*◌, ◌≤◌, IfOk, length};

use cpl_base::{Many, Memory};
use cpl_field::Field;
use cpl_sweep::{Place, STRIP};
use std::alloc::Global;

/// The room in which one rule after another is worked out.
///
/// Source: this project's own.
#[derive(Drop)]
pub struct Room {
    /// Where inputs come from.
    pub places: Many<Place>,
    /// What an entry is given at a cell.
    pub inputs: Field,
    /// Strips of values.
    pub scratch: Field,
}

/// Room for rules of at most so many inputs, and formulas that are worked out in at most so many strips. All memory is
/// taken here.
///
/// Errors: `Memory` where memory runs out.
///
/// Source: this project's own.
pub fn room_of(alloc: Global, inputs: usize, strips: u32) -> Result<Room, Memory>
    ensures places { IfOk result (λ room. length room.places ≡ inputs) }
    ensures inputs { IfOk result (λ room. length room.inputs ≡ inputs) }
    ensures scratch { IfOk result (λ room. length room.scratch ≡ 128 * strips) }
{
    Ok(Room {
        places: Many::of(Vec::from_elem(alloc, Place::Same(0), inputs)?),
        inputs: Field::new(alloc, inputs)?,
        scratch: Field::new(alloc, STRIP * strips as usize)?,
    })
}
