//! Clock, number of runs and stamps.

ghost use Rattle.std.specs.Prelude.{◌≡◌, IfOk, None, length, pos, replicate};
ghost use Rattle.cpl_comp.specs.Marks.{marks_of};
ghost use Rattle.cpl_comp.specs.Worlds.{first_comp};
ghost use Rattle.cpl_comp.specs.declared.component.Comp.{Comp};
ghost use Rattle.cpl_marks.specs.Held.{marks_in};

use cpl_base::{Many, Memory};
use std::alloc::Global;

/// What a component holds beside its values.
///
/// Source: this project's own.
#[derive(Debug, Drop)]
pub struct Marks {
    /// Where its clock stands, in seconds after the start.
    pub clock: i64,
    /// How many runs have ended.
    pub runs: u32,
    /// The time stamp of each field, if it has one, in seconds after the start.
    pub stamps: Many<Option<i64>>,
}

/// Those of a component of so many fields at the start: its clock stands at 0, no run has ended, and no field has a stamp.
/// All memory is taken here.
///
/// Errors: `Memory` where memory runs out.
///
/// Source: this project's own.
pub fn first_marks(alloc: Global, count: usize) -> Result<Marks, Memory>
    ensures value { IfOk result (λ marks. marks_in marks ≡ record { clock = pos 0; runs = 0; stamps = replicate count None }) }
    ensures first { IfOk result (λ marks. (comp : Comp) → count ≡ length comp.fields → marks_in marks ≡ marks_of (first_comp comp)) }
{
    let stamps = Vec::from_elem(alloc, None, count)?;
    Ok(Marks {
        clock: 0,
        runs: 0,
        stamps: Many::of(stamps),
    })
}
