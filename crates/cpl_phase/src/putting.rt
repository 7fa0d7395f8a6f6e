//! New values put in place.

ghost use Rattle.std.specs.Prelude.{◌≡◌, ◌<◌, ◌≤◌, All, length, map};
ghost use Rattle.cpl_phase.specs.Puts.{AreBack, all_put};

use cpl_comp::{MergeRow, SetRow};
use cpl_field::{Field, replace};

/// Puts other fields in places of fields, and what stood there where they came from.
pub(crate) fn put_places(places: &[u16], others: &mut [Field], fields: &mut [Field])
    requires places { All (λ k. k < length fields.old) places.now }
    requires count { length places.now ≤ length others.old }
    ensures fields { fields.new ≡ all_put places.now others.old fields.old }
    ensures others { AreBack fields.old others.old others.new }
{
    for j in 0..places.len() {
        replace(fields, places[j] as usize, &mut others[j]);
    }
}

/// Puts other fields in the places of the fields of assignments, and what stood there where they came from.
pub(crate) fn put_sets(rows: &[SetRow], others: &mut [Field], fields: &mut [Field])
    requires rows { All (λ row. row.field < length fields.old) rows.now }
    requires count { length rows.now ≤ length others.old }
    ensures fields { fields.new ≡ all_put (map (λ row. row.field) rows.now) others.old fields.old }
    ensures others { AreBack fields.old others.old others.new }
{
    for j in 0..rows.len() {
        replace(fields, rows[j].field as usize, &mut others[j]);
    }
}

/// Puts other fields in the places of the fields of merges, and what stood there where they came from.
pub(crate) fn put_merges(rows: &[MergeRow], others: &mut [Field], fields: &mut [Field])
    requires rows { All (λ row. row.field < length fields.old) rows.now }
    requires count { length rows.now ≤ length others.old }
    ensures fields { fields.new ≡ all_put (map (λ row. row.field) rows.now) others.old fields.old }
    ensures others { AreBack fields.old others.old others.new }
{
    for j in 0..rows.len() {
        replace(fields, rows[j].field as usize, &mut others[j]);
    }
}
