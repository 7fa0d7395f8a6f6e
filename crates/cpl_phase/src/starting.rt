//! The start rules of a component, carried out all at once.

ghost use Rattle.std.specs.Prelude.{◌≡◌, ◌<◌, ◌≤◌, All, IfOk, List, Some, length};
ghost use Rattle.std.specs.Option.{ForSome};
ghost use Rattle.cpl_base.specs.Numbers.{IsValue};
ghost use Rattle.cpl_block.specs.Frames.{places_in};
ghost use Rattle.cpl_block.specs.Rings.{IsRing};
ghost use Rattle.cpl_comp.specs.Readings.{Reading};
ghost use Rattle.cpl_comp.specs.Worlds.{FieldWorld, field_value};
ghost use Rattle.cpl_comp.specs.Writes.{fields_started};
ghost use Rattle.cpl_entry.specs.Books.{entries_of};
ghost use Rattle.cpl_rule.specs.Assigned.{HasRoom, IsAsRoomy, IsAssigned, IsRuleOn, IsScene, answers_of};
ghost use Rattle.cpl_rule.specs.Inputs.{AreFields, HaveNumbers, IsHaloed, arguments_of};
ghost use Rattle.cpl_rule.specs.Moments.{IsAt};
ghost use Rattle.cpl_comp.specs.declared.component.Rule.{Rule};
ghost use Rattle.cpl_phase.specs.Assignments.{AreAssigned};
ghost use Rattle.cpl_phase.specs.Refreshed.{AreOnBlock};
ghost use Rattle.cpl_phase.specs.Starts.{places_started, rows_started};
ghost use Rattle.cpl_phase.specs.Worlds.{HaveArrived, HoldFields};

use crate::putting::put_places;
use crate::refreshing::refresh;
use cpl_base::Memory;
use cpl_block::{Ring, frame_laws};
use cpl_comp::Field as Described;
use cpl_entry::EntryBook;
use cpl_field::Field;
use cpl_rule::{Room, Scene, assign};
use std::alloc::Global;

/// The places of the fields of a component that have a start rule, ascending. A component has at most 64 fields.
///
/// Errors: `Memory` where memory runs out.
///
/// Source: this project's own.
pub fn started_places(alloc: Global, described: &[Described]) -> Result<Vec<u16>, Memory>
    requires { length described.now ≤ 64 }
    ensures { IfOk result (λ places. places.items ≡ places_started described.now) }
{
    let mut places = Vec::new(alloc);
    for k in 0..described.len() {
        if described[k].start.is_some() {
            places.push(k as u16)?;
        }
    }
    Ok(places)
}

/// Carries out the start rules of a component over a block, all at once: each reads the fields as they were. `described` are
/// the component's fields, `started` the places of those with a start rule (`started_places`). The rings of the fields that
/// are read beside the cell, `halo`, are filled first; what other blocks own must have arrived there. The new values are
/// worked out in `others`, one for each start rule, which then take the places of the fields that they are the values of.
/// Takes no memory.
///
/// Source: this project's own.
pub fn start_all(
    scene: &Scene,
    book: &EntryBook,
    ring: &Ring,
    halo: &[u16],
    described: &[Described],
    started: &[u16],
    fields: &mut [Field],
    others: &mut [Field],
    room: &mut Room,
)
    requires scene { IsScene scene.now }
    requires ring { IsRing scene.now.frame ring.now }
    requires halo { All (λ k. k < scene.now.fields) halo.now }
    requires described { length described.now ≡ scene.now.fields }
    requires started { started.now ≡ places_started described.now }
    requires rules { All (λ field. ForSome field.start (IsRuleOn scene.now (entries_of book.now))) described.now }
    requires haloed { All (λ field. ForSome field.start (λ rule. All (IsHaloed halo.now) (arguments_of rule))) described.now }
    requires room { All (λ field. ForSome field.start (HasRoom room.old)) described.now }
    requires fields { AreFields scene.now.frame scene.now.fields fields.old }
    requires numbers { HaveNumbers scene.now.frame scene.now.fields fields.old }
    requires count { length started.now ≤ length others.old }
    requires others { AreOnBlock scene.now.frame (length others.old) others.old }
    ensures written { (reading : Reading) (world : List FieldWorld)
        → IsAt scene.now.moment scene.now.frame.grid reading → reading.entries ≡ answers_of (entries_of book.now)
        → reading.value ≡ field_value world
        → HoldFields scene.now.frame scene.now.fields world fields.old → HaveArrived scene.now.frame halo.now world fields.old
        → HoldFields scene.now.frame scene.now.fields (fields_started reading world described.now) fields.new }
    ensures fields { AreFields scene.now.frame scene.now.fields fields.new }
    ensures numbers { HaveNumbers scene.now.frame scene.now.fields fields.new }
    ensures others { AreOnBlock scene.now.frame (length others.old) others.new }
    ensures room { IsAsRoomy room.old room.new }
{
    frame_laws(&scene.frame);
    refresh(&scene.frame, ring, halo, fields);
    assign_started(scene, book, described, started, fields, room, others);
    put_places(started, others, fields);
}

/// Writes the values of start rules into other fields, from the fields of a component as they are.
fn assign_started(
    scene: &Scene,
    book: &EntryBook,
    described: &[Described],
    started: &[u16],
    fields: &[Field],
    room: &mut Room,
    others: &mut [Field],
)
    requires scene { IsScene scene.now }
    requires started { started.now ≡ places_started described.now }
    requires rules { All (λ field. ForSome field.start (IsRuleOn scene.now (entries_of book.now))) described.now }
    requires room { All (λ field. ForSome field.start (HasRoom room.old)) described.now }
    requires fields { AreFields scene.now.frame scene.now.fields fields.now }
    requires count { length started.now ≤ length others.old }
    requires others { AreOnBlock scene.now.frame (length others.old) others.old }
    ensures values { AreAssigned scene.now (entries_of book.now) (rows_started described.now) fields.now others.new }
    ensures others { AreOnBlock scene.now.frame (length others.old) others.new }
    ensures room { IsAsRoomy room.old room.new }
{
    for j in 0..started.len() {
        let k = started[j] as usize;
        assign_one(scene, book, &described[k], fields, room, &mut others[j]);
    }
}

/// Writes the values of the start rule of a field, if it has one, into another field.
fn assign_one(
    scene: &Scene,
    book: &EntryBook,
    described: &Described,
    fields: &[Field],
    room: &mut Room,
    out: &mut Field,
)
    requires scene { IsScene scene.now }
    requires rule { ForSome described.now.start (IsRuleOn scene.now (entries_of book.now)) }
    requires room { ForSome described.now.start (HasRoom room.old) }
    requires fields { AreFields scene.now.frame scene.now.fields fields.now }
    requires out { length out.old ≡ places_in scene.now.frame }
    requires out_values { All IsValue out.old }
    ensures value { (rule : Rule) → described.now.start ≡ Some rule → IsAssigned scene.now (entries_of book.now) rule fields.now out.new }
    ensures out { length out.new ≡ places_in scene.now.frame }
    ensures out_values { All IsValue out.new }
    ensures room { IsAsRoomy room.old room.new }
{
    if let Some(rule) = &described.start {
        assign(scene, book, rule, fields, room, out);
    }
}
