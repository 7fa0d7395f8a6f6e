//! The values of a rule over a block.

ghost use Rattle.std.specs.Prelude.{◌≡◌, ◌*◌, ◌≤◌, ◌+◌, All, IsTrue, length};
ghost use Rattle.cpl_base.specs.Numbers.{IsValue};
ghost use Rattle.cpl_block.specs.Frames.{IsFrame, places_in, span_of};
ghost use Rattle.cpl_comp.specs.declared.component.Rule.TheVariants.{Plain};
ghost use Rattle.cpl_entry.specs.Books.{entries_of};
ghost use Rattle.cpl_formula.specs.Tree.{is_over};
ghost use Rattle.cpl_formula.specs.declared.formula.Parsed.{Parsed};
ghost use Rattle.cpl_sweep.specs.Places.{IsPlace, value_at};
ghost use Rattle.cpl_sweep.specs.Rows.{scratch_rows};
ghost use Rattle.cpl_rule.specs.Assigned.{HasRoom, IsAsRoomy, IsAssigned, IsRuleOn, IsScene};
ghost use Rattle.cpl_rule.specs.Inputs.{AreFields, arguments_of};
ghost use Rattle.cpl_rule.specs.Swept.{IsSwept};

use crate::calling::call_block;
use crate::inputs::{input_count, place_inputs};
use crate::room::Room;
use crate::scene::Scene;
use cpl_block::{Frame, frame_laws};
use cpl_comp::Rule;
use cpl_entry::EntryBook;
use cpl_field::Field;
use cpl_formula::Formula;
use cpl_sweep::{Place, sweep};

/// Writes the values of a rule, in millionths, at all cells of a block, from the fields of the component there and three
/// more with the numbers of the cells. Every place of the field holds a value afterwards; those of the ring mean nothing.
/// The rule reads no farther than the ring, and there is room for it. Takes no memory.
///
/// Source: this project's own.
pub fn assign(
    scene: &Scene,
    book: &EntryBook,
    rule: &Rule,
    fields: &[Field],
    room: &mut Room,
    out: &mut Field,
)
    requires scene { IsScene scene.now }
    requires rule { IsRuleOn scene.now (entries_of book.now) rule.now }
    requires fields { AreFields scene.now.frame scene.now.fields fields.now }
    requires room { HasRoom room.old rule.now }
    requires out { length out.old ≡ places_in scene.now.frame }
    requires out_values { All IsValue out.old }
    ensures value { IsAssigned scene.now (entries_of book.now) rule.now fields.now out.new }
    ensures room { IsAsRoomy room.old room.new }
{
    let places = room.places.as_mut_slice();
    let inputs = room.inputs.values_mut();
    let scratch = room.scratch.values_mut();
    assign_in(
        scene,
        book,
        rule,
        fields,
        places,
        inputs,
        scratch,
        out.values_mut(),
    );
}

/// The same, in room that is lent.
fn assign_in(
    scene: &Scene,
    book: &EntryBook,
    rule: &Rule,
    fields: &[Field],
    places: &mut [Place],
    inputs: &mut [i64],
    scratch: &mut [i64],
    out: &mut [i64],
)
    requires scene { IsScene scene.now }
    requires rule { IsRuleOn scene.now (entries_of book.now) rule.now }
    requires fields { AreFields scene.now.frame scene.now.fields fields.now }
    requires places { length (arguments_of rule.now) ≤ length places.old }
    requires inputs { length (arguments_of rule.now) ≤ length inputs.old }
    requires scratch { (parsed : Parsed) → rule.now ≡ Plain parsed → 128 * scratch_rows parsed.tree ≤ length scratch.old }
    requires out { length out.old ≡ places_in scene.now.frame }
    requires out_values { All IsValue out.old }
    ensures { IsAssigned scene.now (entries_of book.now) rule.now fields.now out.new }
{
    frame_laws(&scene.frame);
    let count = input_count(rule);
    let places = &mut places[..count];
    place_inputs(&scene.frame, scene.fields, &scene.moment, rule, places);
    match rule {
        Rule::Plain(parsed) => {
            sweep_block(
                &scene.frame,
                &parsed.get().tree,
                places,
                fields,
                scratch,
                out,
            )
        }
        Rule::Native { entry, .. } => {
            call_block(
                &scene.frame,
                book,
                *entry,
                places,
                fields,
                &mut inputs[..count],
                out,
            )
        }
    }
}

/// Writes the values of a formula at all cells of a block.
pub(crate) fn sweep_block(
    frame: &Frame,
    tree: &Formula,
    places: &[Place],
    fields: &[Field],
    scratch: &mut [i64],
    out: &mut [i64],
)
    requires frame { IsFrame frame.now }
    requires over { IsTrue (is_over (length places.now) tree.now) }
    requires places { All (IsPlace fields.now (span_of frame.now)) places.now }
    requires fields { All (All IsValue) fields.now }
    requires scratch { 128 * scratch_rows tree.now ≤ length scratch.old }
    requires out { length out.old ≡ places_in frame.now }
    requires out_values { All IsValue out.old }
    ensures { IsSwept frame.now (value_at places.now fields.now tree.now) out.new }
{
    frame_laws(frame);
    let first = frame.first(0, 0) as usize;
    let span = frame.span() as usize;
    sweep(tree, places, fields, scratch, &mut out[first..first + span]);
}
