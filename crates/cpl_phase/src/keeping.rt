//! Kept fields: values of a block's cells without the ring.

ghost use Rattle.std.specs.Prelude.{◌≡◌, ◌+◌, ◌^◌, ◌<◌, ◌++◌, ◌∷◌, [], All, List, ℕ, ℤ, length, map, slice_set};
ghost use Rattle.cpl_base.specs.Numbers.{IsValue};
ghost use Rattle.cpl_block.specs.Frames.{IsFrame, IsOwn, places_in, values_in};
ghost use Rattle.cpl_comp.specs.Worlds.{cell_value};
ghost use Rattle.cpl_comp.specs.Writes.{mean_values};
ghost use Rattle.cpl_grid.specs.Owners.{Layout};
ghost use Rattle.cpl_mediator.specs.Averages.{StandsFor};
ghost use Rattle.cpl_phase.specs.Keeping.{IsAccumOf, StandsForBlock};
ghost use Rattle.cpl_phase.specs.Sites.{AreSites};

use crate::sites::Sites;
use cpl_block::{Frame, frame_laws};
use cpl_field::Field;
use cpl_mediator::Accum;

/// Keeps the values of a field at the cells of a block, one behind the other in `cells`.
pub(crate) fn keep(
    frame: &Frame,
    sites: &Sites,
    field: &Field,
    cells: &mut [i64],
    accum: &mut Accum,
)
    requires sites { AreSites frame.now sites.now }
    requires field { length field.now ≡ places_in frame.now }
    requires field_values { All IsValue field.now }
    requires cells { length cells.old ≡ length sites.now.homes.items }
    requires sums { length accum.old.sums ≡ length sites.now.homes.items }
    requires count { accum.old.count < 2 ^ 24 }
    requires accum { IsAccumOf (length sites.now.homes.items) accum.old }
    ensures stands { (kept : List (List ℤ)) → StandsFor accum.old kept → StandsFor accum.new (kept ++ values_in frame.now field.now ∷ []) }
    ensures accum { IsAccumOf (length sites.now.homes.items) accum.new }
    ensures sums { length accum.new.sums ≡ length accum.old.sums }
    ensures count { accum.new.count ≡ accum.old.count + 1 }
{
    gather(frame, sites, field.values(), cells);
    accum.add(cells);
}

/// Writes the average of what was kept for a field at the cells of a block, and keeps nothing any more; the field's own
/// values where nothing was kept.
pub(crate) fn average(
    frame: &Frame,
    sites: &Sites,
    field: &Field,
    cells: &mut [i64],
    accum: &mut Accum,
    out: &mut Field,
)
    requires frame { IsFrame frame.now }
    requires sites { AreSites frame.now sites.now }
    requires field { length field.now ≡ places_in frame.now }
    requires field_values { All IsValue field.now }
    requires cells { length cells.old ≡ length sites.now.homes.items }
    requires accum { IsAccumOf (length sites.now.homes.items) accum.old }
    requires out { length out.old ≡ places_in frame.now }
    requires out_values { All IsValue out.old }
    ensures written { (layout : Layout) (values : List ℤ) (kept : List (List ℤ)) → layout.grid ≡ frame.now.grid
        → StandsForBlock frame.now accum.old kept → IsOwn frame.now (cell_value values) field.now
        → IsOwn frame.now (cell_value (mean_values layout values kept)) out.new }
    ensures places { length out.new ≡ places_in frame.now }
    ensures out_values { All IsValue out.new }
    ensures stands { StandsFor accum.new [] }
    ensures accum { IsAccumOf (length sites.now.homes.items) accum.new }
    ensures sums { length accum.new.sums ≡ length accum.old.sums }
{
    frame_laws(frame);
    let nothing = accum.count() == 0;
    if nothing {
        copy(field, out);
        return;
    }
    match accum.average(cells) {
        Ok(()) => scatter_field(frame, sites, cells, out),
        Err(_) => copy(field, out),
    }
}

/// Copies a field.
fn copy(field: &Field, out: &mut Field)
    requires { length out.old ≡ length field.now }
    ensures { out.new ≡ field.now }
{
    out.values_mut().copy_from_slice(field.values());
}

/// Writes values of the cells of a block to their places of a field.
pub(crate) fn scatter_field(frame: &Frame, sites: &Sites, cells: &[i64], field: &mut Field)
    requires sites { AreSites frame.now sites.now }
    requires field { length field.old ≡ places_in frame.now }
    requires field_values { All IsValue field.old }
    requires cells { length cells.now ≡ length sites.now.homes.items }
    requires cells_values { All IsValue cells.now }
    ensures places { length field.new ≡ places_in frame.now }
    ensures values { All IsValue field.new }
    ensures cells { (value : ℕ → ℤ) → cells.now ≡ map value sites.now.cells.items → values_in frame.now field.new ≡ map value sites.now.cells.items }
{
    scatter(frame, sites, cells, field.values_mut());
}

/// Writes the values of a field at the cells of a block, one behind the other.
pub(crate) fn gather(frame: &Frame, sites: &Sites, field: &[i64], cells: &mut [i64])
    requires sites { AreSites frame.now sites.now }
    requires field { length field.now ≡ places_in frame.now }
    requires cells { length cells.old ≡ length sites.now.homes.items }
    ensures { cells.new ≡ values_in frame.now field.now }
{
    for k in 0..cells.len() {
        cells[k] = field[sites.homes[k] as usize];
    }
}

/// Writes values of the cells of a block to their places.
fn scatter(frame: &Frame, sites: &Sites, cells: &[i64], field: &mut [i64])
    requires sites { AreSites frame.now sites.now }
    requires field { length field.old ≡ places_in frame.now }
    requires field_values { All IsValue field.old }
    requires cells { length cells.now ≡ length sites.now.homes.items }
    requires cells_values { All IsValue cells.now }
    ensures places { length field.new ≡ length field.old }
    ensures values { All IsValue field.new }
    ensures cells { (value : ℕ → ℤ) → cells.now ≡ map value sites.now.cells.items → values_in frame.now field.new ≡ map value sites.now.cells.items }
{
    for k in 0..cells.len() {
        put(field, sites.homes[k], cells[k]);
    }
}

/// Writes a value to a place.
#[inline(always)]
fn put(field: &mut [i64], place: u32, value: i64)
    requires { place < length field.old }
    ensures { field.new ≡ slice_set field.old place value }
{
    field[place as usize] = value;
}
