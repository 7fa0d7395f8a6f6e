//! The averages of a phase, each in a field of its own.

ghost use Rattle.std.specs.Prelude.{◌≡◌, ◌≢◌, ◌<◌, ◌≤◌, All, List, ℕ, fold, length, slice_index};
ghost use Rattle.std.specs.List.{AllPairs};
ghost use Rattle.cpl_block.specs.Frames.{IsFrame};
ghost use Rattle.cpl_comp.specs.Worlds.{FieldWorld};
ghost use Rattle.cpl_comp.specs.Writes.{average_write, emptied};
ghost use Rattle.cpl_grid.specs.Owners.{Layout};
ghost use Rattle.cpl_sweep.specs.Places.{field_at};
ghost use Rattle.cpl_phase.specs.Kept.{AreAccums, StandForKept, accum_at};
ghost use Rattle.cpl_phase.specs.Refreshed.{AreOnBlock};
ghost use Rattle.cpl_phase.specs.Sites.{AreSites};
ghost use Rattle.cpl_phase.specs.Worlds.{HoldFields, IsWritten};

use crate::keeping::average;
use crate::sites::Sites;
use cpl_block::{Frame, frame_laws};
use cpl_field::Field;
use cpl_mediator::Accum;

/// Writes the averages of what was kept for some fields, no two the same, into other fields, and keeps nothing for these
/// any more. A field for which nothing was kept has its own values. Takes no memory.
///
/// Source: this project's own.
pub fn average_all(
    frame: &Frame,
    sites: &Sites,
    places: &[u16],
    fields: &[Field],
    accums: &mut [Accum],
    cells: &mut [i64],
    others: &mut [Field],
)
    requires frame { IsFrame frame.now }
    requires sites { AreSites frame.now sites.now }
    requires places { All (λ k. k < length fields.now) places.now }
    requires summed { All (λ k. k < length accums.old) places.now }
    requires once { AllPairs (λ a b. a ≢ b) places.now }
    requires fields { AreOnBlock frame.now (length fields.now) fields.now }
    requires accums { AreAccums (length sites.now.homes.items) (length accums.old) accums.old }
    requires cells { length cells.old ≡ length sites.now.homes.items }
    requires count { length places.now ≤ length others.old }
    requires others { AreOnBlock frame.now (length others.old) others.old }
    ensures written { (layout : Layout) (count : ℕ) (world : List FieldWorld) → layout.grid ≡ frame.now.grid
        → HoldFields frame.now count world fields.now → StandForKept frame.now count world accums.old → All (λ k. k < count) places.now
        → (j : ℕ) → j < length places.now → IsWritten frame.now (average_write layout world (slice_index places.now j)) (field_at others.new j) }
    ensures kept { (count : ℕ) (world : List FieldWorld) → StandForKept frame.now count world accums.old
        → StandForKept frame.now count (fold emptied world places.now) accums.new }
    ensures accums { AreAccums (length sites.now.homes.items) (length accums.old) accums.new }
    ensures sums { (k : ℕ) → length (accum_at accums.new k).sums ≡ length (accum_at accums.old k).sums }
    ensures fewer { (k : ℕ) → (accum_at accums.new k).count ≤ (accum_at accums.old k).count }
    ensures aged { (bound : ℕ) → All (λ accum. accum.count ≤ bound) accums.old → All (λ accum. accum.count ≤ bound) accums.new }
    ensures others { AreOnBlock frame.now (length others.old) others.new }
{
    frame_laws(frame);
    for j in 0..places.len() {
        let k = places[j] as usize;
        average(
            frame,
            sites,
            &fields[k],
            cells,
            &mut accums[k],
            &mut others[j],
        );
    }
}
