//! The values of the assignments of a phase, each in a field of its own.

ghost use Rattle.std.specs.Prelude.{◌≤◌, length};
ghost use Rattle.cpl_entry.specs.Books.{entries_of};
ghost use Rattle.cpl_rule.specs.Assigned.{IsAsRoomy, IsScene};
ghost use Rattle.cpl_rule.specs.Inputs.{AreFields};
ghost use Rattle.cpl_phase.specs.Assignments.{AreAssigned, AreRulesOn, HaveRoom};
ghost use Rattle.cpl_phase.specs.Refreshed.{AreOnBlock};

use cpl_comp::SetRow;
use cpl_entry::EntryBook;
use cpl_field::Field;
use cpl_rule::{Room, Scene, assign};

/// Writes the values of the rules of rows into other fields, from the fields of a component as they are. Takes no memory.
///
/// Source: this project's own.
pub fn assign_all(
    scene: &Scene,
    book: &EntryBook,
    rows: &[SetRow],
    fields: &[Field],
    room: &mut Room,
    others: &mut [Field],
)
    requires scene { IsScene scene.now }
    requires rows { AreRulesOn scene.now (entries_of book.now) rows.now }
    requires fields { AreFields scene.now.frame scene.now.fields fields.now }
    requires room { HaveRoom room.old rows.now }
    requires count { length rows.now ≤ length others.old }
    requires others { AreOnBlock scene.now.frame (length others.old) others.old }
    ensures values { AreAssigned scene.now (entries_of book.now) rows.now fields.now others.new }
    ensures others { AreOnBlock scene.now.frame (length others.old) others.new }
    ensures room { IsAsRoomy room.old room.new }
{
    for j in 0..rows.len() {
        assign(scene, book, &rows[j].rule, fields, room, &mut others[j]);
    }
}
