//! What a phase keeps for its averages.

ghost use Rattle.std.specs.Prelude.{◌≡◌, ◌≢◌, ◌+◌, ◌^◌, ◌<◌, ◌≤◌, All, AllPairs, List, ℕ, fold, length, map};
ghost use Rattle.cpl_base.specs.Numbers.{IsValue};
ghost use Rattle.cpl_block.specs.Frames.{places_in};
ghost use Rattle.cpl_comp.specs.Readings.{Reading};
ghost use Rattle.cpl_comp.specs.Worlds.{FieldWorld};
ghost use Rattle.cpl_comp.specs.Writes.{kept_more};
ghost use Rattle.cpl_entry.specs.Books.{entries_of};
ghost use Rattle.cpl_rule.specs.Assigned.{IsAsRoomy, IsScene, answers_of};
ghost use Rattle.cpl_rule.specs.Inputs.{AreFields, HoldReading, IsHaloed, arguments_of};
ghost use Rattle.cpl_rule.specs.Moments.{IsAt};
ghost use Rattle.cpl_phase.specs.Assignments.{AreRulesOn, HaveRoom};
ghost use Rattle.cpl_phase.specs.Keeping.{IsAccumOf};
ghost use Rattle.cpl_phase.specs.Kept.{StandForKept, accum_at};
ghost use Rattle.cpl_phase.specs.Sites.{AreSites};

use crate::keeping::keep;
use crate::sites::Sites;
use cpl_block::frame_laws;
use cpl_comp::SetRow;
use cpl_entry::EntryBook;
use cpl_field::Field;
use cpl_mediator::Accum;
use cpl_rule::{Room, Scene, assign};

/// Keeps the values of the rules of rows for the fields of these rows, no two the same, as they are from the fields of a
/// component. The values of each are worked out in `further`, and lined up in `cells`. Fewer than 2^24 fields have been kept
/// for any of them. Takes no memory.
///
/// Source: this project's own.
pub fn keep_all(
    scene: &Scene,
    book: &EntryBook,
    sites: &Sites,
    rows: &[SetRow],
    fields: &[Field],
    room: &mut Room,
    further: &mut Field,
    cells: &mut [i64],
    accums: &mut [Accum],
)
    requires scene { IsScene scene.now }
    requires sites { AreSites scene.now.frame sites.now }
    requires rows { AreRulesOn scene.now (entries_of book.now) rows.now }
    requires targets { All (λ row. row.field < length accums.old) rows.now }
    requires fields { AreFields scene.now.frame scene.now.fields fields.now }
    requires room { HaveRoom room.old rows.now }
    requires further { length further.old ≡ places_in scene.now.frame }
    requires further_values { All IsValue further.old }
    requires cells { length cells.old ≡ length sites.now.homes.items }
    requires accums { All (IsAccumOf (length sites.now.homes.items)) accums.old }
    requires sums { All (λ row. length (accum_at accums.old row.field).sums ≡ length sites.now.homes.items) rows.now }
    requires once { AllPairs (λ a b. a ≢ b) (map (λ row. row.field) rows.now) }
    requires counts { All (λ row. (accum_at accums.old row.field).count < 2 ^ 24) rows.now }
    ensures kept { (halo : List ℕ) (reading : Reading) (count : ℕ) (world : List FieldWorld)
        → IsAt scene.now.moment scene.now.frame.grid reading → reading.entries ≡ answers_of (entries_of book.now)
        → All (λ row. All (IsHaloed halo) (arguments_of row.rule)) rows.now
        → HoldReading scene.now.frame scene.now.fields halo reading fields.now
        → StandForKept scene.now.frame count world accums.old
        → StandForKept scene.now.frame count (fold (kept_more reading) world rows.now) accums.new }
    ensures accums { All (IsAccumOf (length sites.now.homes.items)) accums.new }
    ensures count { length accums.new ≡ length accums.old }
    ensures sums { (k : ℕ) → length (accum_at accums.new k).sums ≡ length (accum_at accums.old k).sums }
    ensures aged { (bound : ℕ) → All (λ accum. accum.count ≤ bound) accums.old → All (λ accum. accum.count ≤ bound + 1) accums.new }
    ensures room { IsAsRoomy room.old room.new }
    ensures further { length further.new ≡ places_in scene.now.frame }
    ensures further_values { All IsValue further.new }
{
    frame_laws(&scene.frame);
    for j in 0..rows.len() {
        let row = &rows[j];
        let k = row.field as usize;
        assign(scene, book, &row.rule, fields, room, further);
        keep(&scene.frame, sites, further, cells, &mut accums[k]);
    }
}
