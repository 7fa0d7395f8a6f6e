//! The new values of a phase, each in a field of its own, and what it keeps.

ghost use Rattle.std.specs.Prelude.{◌≡◌, ◌+◌, ◌^◌, ◌<◌, ◌≤◌, All, List, ℕ, fold, length};
ghost use Rattle.cpl_base.specs.Numbers.{IsValue};
ghost use Rattle.cpl_block.specs.Frames.{places_in};
ghost use Rattle.cpl_comp.specs.Readings.{Reading};
ghost use Rattle.cpl_comp.specs.Worlds.{FieldWorld};
ghost use Rattle.cpl_comp.specs.Writes.{emptied, kept_more};
ghost use Rattle.cpl_entry.specs.Books.{entries_of};
ghost use Rattle.cpl_rule.specs.Assigned.{IsAsRoomy, IsScene, answers_of};
ghost use Rattle.cpl_rule.specs.Inputs.{AreFields, HoldReading};
ghost use Rattle.cpl_rule.specs.Moments.{IsAt};
ghost use Rattle.cpl_phase.specs.Assignments.{HaveRoom};
ghost use Rattle.cpl_phase.specs.Kept.{AreAccums, StandForKept, accum_at};
ghost use Rattle.cpl_phase.specs.Phases.{AreNews, IsPhaseOn};
ghost use Rattle.cpl_phase.specs.Refreshed.{AreOnBlock};
ghost use Rattle.cpl_phase.specs.Sites.{AreSites};
ghost use Rattle.cpl_phase.specs.Worlds.{HoldFields};

use crate::averaging::average_all;
use crate::filling::assign_all;
use crate::keeping_all::keep_all;
use crate::merging::merge_all;
use crate::sites::Sites;
use cpl_block::frame_laws;
use cpl_comp::Phase;
use cpl_entry::EntryBook;
use cpl_field::Field;
use cpl_mediator::Accum;
use cpl_rule::{Room, Scene};

/// Writes the averages, assignments and merges of a phase into other fields, from the fields as they are; what was kept for
/// its averages is forgotten, and what it adds is kept.
pub(crate) fn work_out(
    scene: &Scene,
    book: &EntryBook,
    sites: &Sites,
    phase: &Phase,
    fields: &[Field],
    accums: &mut [Accum],
    averaged: &mut [Field],
    assigned: &mut [Field],
    merged: &mut [Field],
    further: &mut Field,
    cells: &mut [i64],
    room: &mut Room,
)
    requires scene { IsScene scene.now }
    requires sites { AreSites scene.now.frame sites.now }
    requires phase { IsPhaseOn scene.now (entries_of book.now) phase.now }
    requires room { HaveRoom room.old phase.now.sets }
    requires add_room { HaveRoom room.old phase.now.adds }
    requires fields { AreFields scene.now.frame scene.now.fields fields.now }
    requires accums { AreAccums (length sites.now.homes.items) scene.now.fields accums.old }
    requires sums { All (λ row. length (accum_at accums.old row.field).sums ≡ length sites.now.homes.items) phase.now.adds }
    requires counts { All (λ row. (accum_at accums.old row.field).count < 2 ^ 24) phase.now.adds }
    requires average_count { length phase.now.averages ≤ length averaged.old }
    requires set_count { length phase.now.sets ≤ length assigned.old }
    requires merge_count { length phase.now.merges ≤ length merged.old }
    requires averaged { AreOnBlock scene.now.frame (length averaged.old) averaged.old }
    requires assigned { AreOnBlock scene.now.frame (length assigned.old) assigned.old }
    requires merged { AreOnBlock scene.now.frame (length merged.old) merged.old }
    requires further { length further.old ≡ places_in scene.now.frame }
    requires further_values { All IsValue further.old }
    requires cells { length cells.old ≡ length sites.now.homes.items }
    ensures news { (reading : Reading) (world : List FieldWorld)
        → IsAt scene.now.moment scene.now.frame.grid reading → reading.entries ≡ answers_of (entries_of book.now)
        → HoldReading scene.now.frame scene.now.fields phase.now.halo.fields reading fields.now
        → HoldFields scene.now.frame scene.now.fields world fields.now
        → StandForKept scene.now.frame scene.now.fields world accums.old
        → AreNews scene.now.frame reading world phase.now averaged.new assigned.new merged.new }
    ensures kept { (reading : Reading) (world : List FieldWorld)
        → IsAt scene.now.moment scene.now.frame.grid reading → reading.entries ≡ answers_of (entries_of book.now)
        → HoldReading scene.now.frame scene.now.fields phase.now.halo.fields reading fields.now
        → StandForKept scene.now.frame scene.now.fields world accums.old
        → StandForKept scene.now.frame scene.now.fields
        (fold (kept_more reading) (fold emptied world phase.now.averages) phase.now.adds) accums.new }
    ensures accums { AreAccums (length sites.now.homes.items) scene.now.fields accums.new }
    ensures sums { (k : ℕ) → length (accum_at accums.new k).sums ≡ length (accum_at accums.old k).sums }
    ensures aged { (bound : ℕ) → All (λ accum. accum.count ≤ bound) accums.old → All (λ accum. accum.count ≤ bound + 1) accums.new }
    ensures averaged { AreOnBlock scene.now.frame (length averaged.old) averaged.new }
    ensures assigned { AreOnBlock scene.now.frame (length assigned.old) assigned.new }
    ensures merged { AreOnBlock scene.now.frame (length merged.old) merged.new }
    ensures further { length further.new ≡ places_in scene.now.frame }
    ensures further_values { All IsValue further.new }
    ensures room { IsAsRoomy room.old room.new }
{
    frame_laws(&scene.frame);
    average_all(
        &scene.frame,
        sites,
        phase.averages.items(),
        fields,
        accums,
        cells,
        averaged,
    );
    assign_all(scene, book, phase.sets.items(), fields, room, assigned);
    merge_all(&scene.frame, phase.merges.items(), fields, merged);
    keep_all(
        scene,
        book,
        sites,
        phase.adds.items(),
        fields,
        room,
        further,
        cells,
        accums,
    );
}
