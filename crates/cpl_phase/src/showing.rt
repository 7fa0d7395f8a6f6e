//! Values of a block's cells, one behind the other, for each field of a component.

ghost use Rattle.std.specs.Prelude.{◌≡◌, ◌++◌, ◌∷◌, [], ◌<◌, ◌≤◌, All, List, ℕ, length, map, slice_set};
ghost use Rattle.cpl_block.specs.Frames.{places_in, values_in};
ghost use Rattle.cpl_comp.specs.Components.{written_fields};
ghost use Rattle.cpl_phase.specs.Shown.{AreShownFor};
ghost use Rattle.cpl_phase.specs.Sites.{AreSites};
ghost use Rattle.cpl_sweep.specs.Places.{field_at};

use crate::keeping::gather;
use crate::sites::Sites;
use cpl_block::Frame;
use cpl_comp::{MergeRow, Phase, SetRow};
use cpl_field::Field;

/// Lines up the values of the fields that a phase gives new values.
pub(crate) fn show_written(
    frame: &Frame,
    sites: &Sites,
    phase: &Phase,
    fields: &[Field],
    shown: &mut [Field],
)
    requires sites { AreSites frame.now sites.now }
    requires fields { All (λ field. length field ≡ places_in frame.now) fields.now }
    requires shown { All (λ values. length values ≡ length sites.now.homes.items) shown.old }
    requires few { length shown.old ≤ length fields.now }
    requires sets { All (λ row. row.field < length shown.old) phase.now.sets }
    requires merges { All (λ row. row.field < length shown.old) phase.now.merges }
    requires averages { All (λ k. k < length shown.old) phase.now.averages }
    ensures { AreShownFor frame.now (length sites.now.homes.items) (written_fields phase.now) fields.now shown.old shown.new }
{
    show_sets(frame, sites, phase.sets.items(), fields, shown);
    show_merges(frame, sites, phase.merges.items(), fields, shown);
    show_places(frame, sites, phase.averages.items(), fields, shown);
}

/// Lines up the values of the fields of assignments.
fn show_sets(frame: &Frame, sites: &Sites, rows: &[SetRow], fields: &[Field], shown: &mut [Field])
    requires sites { AreSites frame.now sites.now }
    requires fields { All (λ field. length field ≡ places_in frame.now) fields.now }
    requires shown { All (λ values. length values ≡ length sites.now.homes.items) shown.old }
    requires few { length shown.old ≤ length fields.now }
    requires places { All (λ row. row.field < length shown.old) rows.now }
    ensures { AreShownFor frame.now (length sites.now.homes.items) (map (λ row. row.field) rows.now) fields.now shown.old shown.new }
{
    for j in 0..rows.len() {
        show(frame, sites, rows[j].field, fields, shown);
    }
}

/// Lines up the values of the fields of merges.
fn show_merges(
    frame: &Frame,
    sites: &Sites,
    rows: &[MergeRow],
    fields: &[Field],
    shown: &mut [Field],
)
    requires sites { AreSites frame.now sites.now }
    requires fields { All (λ field. length field ≡ places_in frame.now) fields.now }
    requires shown { All (λ values. length values ≡ length sites.now.homes.items) shown.old }
    requires few { length shown.old ≤ length fields.now }
    requires places { All (λ row. row.field < length shown.old) rows.now }
    ensures { AreShownFor frame.now (length sites.now.homes.items) (map (λ row. row.field) rows.now) fields.now shown.old shown.new }
{
    for j in 0..rows.len() {
        show(frame, sites, rows[j].field, fields, shown);
    }
}

/// Lines up the values of the fields of places.
pub(crate) fn show_places(
    frame: &Frame,
    sites: &Sites,
    places: &[u16],
    fields: &[Field],
    shown: &mut [Field],
)
    requires sites { AreSites frame.now sites.now }
    requires fields { All (λ field. length field ≡ places_in frame.now) fields.now }
    requires shown { All (λ values. length values ≡ length sites.now.homes.items) shown.old }
    requires few { length shown.old ≤ length fields.now }
    requires places { All (λ k. k < length shown.old) places.now }
    ensures { AreShownFor frame.now (length sites.now.homes.items) places.now fields.now shown.old shown.new }
{
    for j in 0..places.len() {
        show(frame, sites, places[j], fields, shown);
    }
}

/// Lines up the values of one field.
fn show(frame: &Frame, sites: &Sites, k: u16, fields: &[Field], shown: &mut [Field])
    requires sites { AreSites frame.now sites.now }
    requires fields { All (λ field. length field ≡ places_in frame.now) fields.now }
    requires shown { All (λ values. length values ≡ length sites.now.homes.items) shown.old }
    requires few { length shown.old ≤ length fields.now }
    requires place { k < length shown.old }
    ensures { shown.new ≡ slice_set shown.old k (values_in frame.now (field_at fields.now k)) }
{
    let place = k as usize;
    show_field(frame, sites, &fields[place], &mut shown[place]);
}

/// The values of a field at the block's cells, one behind the other.
fn show_field(frame: &Frame, sites: &Sites, field: &Field, values: &mut Field)
    requires sites { AreSites frame.now sites.now }
    requires field { length field.now ≡ places_in frame.now }
    requires values { length values.old ≡ length sites.now.homes.items }
    ensures { values.new ≡ values_in frame.now field.now }
{
    gather(frame, sites, field.values(), values.values_mut());
}
