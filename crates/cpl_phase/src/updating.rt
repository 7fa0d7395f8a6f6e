//! A phase carried out, all at once.

ghost use Rattle.std.specs.Prelude.{◌≡◌, ◌+◌, ◌^◌, ◌<◌, ◌≤◌, All, List, ℕ, length};
ghost use Rattle.cpl_base.specs.Numbers.{IsValue};
ghost use Rattle.cpl_block.specs.Frames.{places_in};
ghost use Rattle.cpl_block.specs.Rings.{IsRing};
ghost use Rattle.cpl_comp.specs.Readings.{Reading};
ghost use Rattle.cpl_comp.specs.Worlds.{FieldWorld, field_value};
ghost use Rattle.cpl_entry.specs.Books.{entries_of};
ghost use Rattle.cpl_rule.specs.Assigned.{IsAsRoomy, IsScene, answers_of};
ghost use Rattle.cpl_rule.specs.Inputs.{AreFields, HaveNumbers};
ghost use Rattle.cpl_rule.specs.Moments.{IsAt};
ghost use Rattle.cpl_phase.specs.Assignments.{HaveRoom};
ghost use Rattle.cpl_phase.specs.Kept.{AreAccums, StandForKept, accum_at};
ghost use Rattle.cpl_phase.specs.Phases.{IsAfter, IsPhaseOn};
ghost use Rattle.cpl_phase.specs.Refreshed.{AreOnBlock};
ghost use Rattle.cpl_phase.specs.Sites.{AreSites};
ghost use Rattle.cpl_phase.specs.Worlds.{HaveArrived, HoldFields};

use crate::putting::{put_merges, put_places, put_sets};
use crate::refreshing::refresh;
use crate::sites::Sites;
use crate::working::work_out;
use cpl_block::{Ring, frame_laws};
use cpl_comp::Phase;
use cpl_entry::EntryBook;
use cpl_field::Field;
use cpl_mediator::Accum;
use cpl_rule::{Room, Scene};

/// Carries out a phase over a block, all at once: averages, assignments, merges and what is kept each read the fields as they
/// were. The rings of the fields that are read beside the cell are filled first; what other blocks own must have arrived
/// there. The new values are worked out in `others`, one for each average, assignment and merge and one more, which then
/// take the places of the fields that they are the values of. `accums` are the running sums of the component's fields, by
/// their places, and `cells` has room for a number a cell. Takes no memory.
///
/// Source: this project's own.
pub fn carry_out(
    scene: &Scene,
    book: &EntryBook,
    ring: &Ring,
    sites: &Sites,
    phase: &Phase,
    fields: &mut [Field],
    accums: &mut [Accum],
    others: &mut [Field],
    cells: &mut [i64],
    room: &mut Room,
)
    requires scene { IsScene scene.now }
    requires ring { IsRing scene.now.frame ring.now }
    requires sites { AreSites scene.now.frame sites.now }
    requires phase { IsPhaseOn scene.now (entries_of book.now) phase.now }
    requires room { HaveRoom room.old phase.now.sets }
    requires add_room { HaveRoom room.old phase.now.adds }
    requires fields { AreFields scene.now.frame scene.now.fields fields.old }
    requires numbers { HaveNumbers scene.now.frame scene.now.fields fields.old }
    requires accums { AreAccums (length sites.now.homes.items) scene.now.fields accums.old }
    requires sums { All (λ row. length (accum_at accums.old row.field).sums ≡ length sites.now.homes.items) phase.now.adds }
    requires counts { All (λ row. (accum_at accums.old row.field).count < 2 ^ 24) phase.now.adds }
    requires count { length phase.now.averages + length phase.now.sets + length phase.now.merges + 1 ≤ length others.old }
    requires others { AreOnBlock scene.now.frame (length others.old) others.old }
    requires cells { length cells.old ≡ length sites.now.homes.items }
    ensures after { (reading : Reading) (world : List FieldWorld)
        → IsAt scene.now.moment scene.now.frame.grid reading → reading.entries ≡ answers_of (entries_of book.now)
        → reading.value ≡ field_value world
        → HoldFields scene.now.frame scene.now.fields world fields.old
        → HaveArrived scene.now.frame phase.now.halo.fields world fields.old
        → StandForKept scene.now.frame scene.now.fields world accums.old
        → IsAfter scene.now reading world phase.now fields.new accums.new }
    ensures fields { AreFields scene.now.frame scene.now.fields fields.new }
    ensures numbers { HaveNumbers scene.now.frame scene.now.fields fields.new }
    ensures accums { AreAccums (length sites.now.homes.items) scene.now.fields accums.new }
    ensures sums { (k : ℕ) → length (accum_at accums.new k).sums ≡ length (accum_at accums.old k).sums }
    ensures aged { (bound : ℕ) → All (λ accum. accum.count ≤ bound) accums.old → All (λ accum. accum.count ≤ bound + 1) accums.new }
    ensures others { AreOnBlock scene.now.frame (length others.old) others.new }
    ensures room { IsAsRoomy room.old room.new }
{
    let (averaged, rest) = others.split_at_mut(phase.averages.items().len());
    let (assigned, rest) = rest.split_at_mut(phase.sets.items().len());
    let (merged, rest) = rest.split_at_mut(phase.merges.items().len());
    carry_over(
        scene,
        book,
        ring,
        sites,
        phase,
        fields,
        accums,
        averaged,
        assigned,
        merged,
        &mut rest[0],
        cells,
        room,
    );
}

/// The same, with other fields for averages, assignments and merges, and one for what is kept.
fn carry_over(
    scene: &Scene,
    book: &EntryBook,
    ring: &Ring,
    sites: &Sites,
    phase: &Phase,
    fields: &mut [Field],
    accums: &mut [Accum],
    averaged: &mut [Field],
    assigned: &mut [Field],
    merged: &mut [Field],
    further: &mut Field,
    cells: &mut [i64],
    room: &mut Room,
)
    requires scene { IsScene scene.now }
    requires ring { IsRing scene.now.frame ring.now }
    requires sites { AreSites scene.now.frame sites.now }
    requires phase { IsPhaseOn scene.now (entries_of book.now) phase.now }
    requires room { HaveRoom room.old phase.now.sets }
    requires add_room { HaveRoom room.old phase.now.adds }
    requires fields { AreFields scene.now.frame scene.now.fields fields.old }
    requires numbers { HaveNumbers scene.now.frame scene.now.fields fields.old }
    requires accums { AreAccums (length sites.now.homes.items) scene.now.fields accums.old }
    requires sums { All (λ row. length (accum_at accums.old row.field).sums ≡ length sites.now.homes.items) phase.now.adds }
    requires counts { All (λ row. (accum_at accums.old row.field).count < 2 ^ 24) phase.now.adds }
    requires average_count { length phase.now.averages ≤ length averaged.old }
    requires set_count { length phase.now.sets ≤ length assigned.old }
    requires merge_count { length phase.now.merges ≤ length merged.old }
    requires averaged { AreOnBlock scene.now.frame (length averaged.old) averaged.old }
    requires assigned { AreOnBlock scene.now.frame (length assigned.old) assigned.old }
    requires merged { AreOnBlock scene.now.frame (length merged.old) merged.old }
    requires further { length further.old ≡ places_in scene.now.frame }
    requires further_values { All IsValue further.old }
    requires cells { length cells.old ≡ length sites.now.homes.items }
    ensures after { (reading : Reading) (world : List FieldWorld)
        → IsAt scene.now.moment scene.now.frame.grid reading → reading.entries ≡ answers_of (entries_of book.now)
        → reading.value ≡ field_value world
        → HoldFields scene.now.frame scene.now.fields world fields.old
        → HaveArrived scene.now.frame phase.now.halo.fields world fields.old
        → StandForKept scene.now.frame scene.now.fields world accums.old
        → IsAfter scene.now reading world phase.now fields.new accums.new }
    ensures fields { AreFields scene.now.frame scene.now.fields fields.new }
    ensures numbers { HaveNumbers scene.now.frame scene.now.fields fields.new }
    ensures accums { AreAccums (length sites.now.homes.items) scene.now.fields accums.new }
    ensures sums { (k : ℕ) → length (accum_at accums.new k).sums ≡ length (accum_at accums.old k).sums }
    ensures aged { (bound : ℕ) → All (λ accum. accum.count ≤ bound) accums.old → All (λ accum. accum.count ≤ bound + 1) accums.new }
    ensures averaged { AreOnBlock scene.now.frame (length averaged.old) averaged.new }
    ensures assigned { AreOnBlock scene.now.frame (length assigned.old) assigned.new }
    ensures merged { AreOnBlock scene.now.frame (length merged.old) merged.new }
    ensures further { length further.new ≡ places_in scene.now.frame }
    ensures further_values { All IsValue further.new }
    ensures room { IsAsRoomy room.old room.new }
{
    let halo = phase.halo.fields.items();
    let averages = phase.averages.items();
    let sets = phase.sets.items();
    let merges = phase.merges.items();
    frame_laws(&scene.frame);
    refresh(&scene.frame, ring, halo, fields);
    work_out(
        scene, book, sites, phase, fields, accums, averaged, assigned, merged, further, cells, room,
    );
    put_places(averages, averaged, fields);
    put_sets(sets, assigned, fields);
    put_merges(merges, merged, fields);
}
