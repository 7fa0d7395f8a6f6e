//! The values of merges over a block.

ghost use Rattle.std.specs.Prelude.{◌≡◌, ◌+◌, ◌^◌, ◌<◌, ◌≤◌, All, length, map};
ghost use Rattle.std.specs.List.{range_with_len};
ghost use Rattle.cpl_base.specs.Numbers.{IsValue};
ghost use Rattle.cpl_block.specs.Frames.{IsFrame, places_in, value_at};
ghost use Rattle.cpl_comp.specs.Components.{IsMerge, IsTerm as IsTermOf};
ghost use Rattle.cpl_mediator.specs.Merges.{IsTerm};
ghost use Rattle.cpl_sweep.specs.Places.{field_at};
ghost use Rattle.cpl_rule.specs.Swept.{IsSwept};
ghost use Rattle.cpl_phase.specs.Assignments.{AreMerged};
ghost use Rattle.cpl_phase.specs.Merging.{factors_at, merge_at, merge_step};
ghost use Rattle.cpl_phase.specs.Refreshed.{AreOnBlock};

use cpl_block::{Frame, frame_laws};
use cpl_comp::MergeRow;
use cpl_field::Field;
use cpl_mediator::merge;

/// A merge has at most so many products.
const TERMS: usize = 32;

/// Writes the values of merges into other fields, from the fields of a component as they are.
pub(crate) fn merge_all(frame: &Frame, rows: &[MergeRow], fields: &[Field], others: &mut [Field])
    requires frame { IsFrame frame.now }
    requires rows { All (IsMerge (length fields.now)) rows.now }
    requires fields { AreOnBlock frame.now (length fields.now) fields.now }
    requires count { length rows.now ≤ length others.old }
    requires others { AreOnBlock frame.now (length others.old) others.old }
    ensures values { AreMerged frame.now rows.now fields.now others.new }
    ensures others { AreOnBlock frame.now (length others.old) others.new }
{
    for j in 0..rows.len() {
        merge_field(frame, &rows[j], fields, &mut others[j]);
    }
}

/// Writes the values of a merge into another field.
fn merge_field(frame: &Frame, row: &MergeRow, fields: &[Field], out: &mut Field)
    requires frame { IsFrame frame.now }
    requires row { IsMerge (length fields.now) row.now }
    requires fields { AreOnBlock frame.now (length fields.now) fields.now }
    requires out { length out.old ≡ places_in frame.now }
    requires out_values { All IsValue out.old }
    ensures { IsSwept frame.now (merge_step frame.now row.now.terms fields.now) out.new }
{
    merge_block(frame, row, fields, out.values_mut());
}

/// Writes the values of a merge at all cells of a block.
fn merge_block(frame: &Frame, row: &MergeRow, fields: &[Field], out: &mut [i64])
    requires frame { IsFrame frame.now }
    requires row { IsMerge (length fields.now) row.now }
    requires fields { AreOnBlock frame.now (length fields.now) fields.now }
    requires out { length out.old ≡ places_in frame.now }
    requires out_values { All IsValue out.old }
    ensures { IsSwept frame.now (merge_step frame.now row.now.terms fields.now) out.new }
{
    frame_laws(frame);
    let first = frame.first(0, 0) as usize;
    let span = frame.span() as usize;
    merge_run(
        row.terms.items(),
        fields,
        first,
        &mut out[first..first + span],
    );
}

/// Writes the values of a merge at a run of places.
fn merge_run(terms: &[(u16, u16)], fields: &[Field], first: usize, these: &mut [i64])
    requires few { first + length these.old ≤ 2 ^ 24 }
    requires count { length terms.now ≤ 32 }
    requires terms { All (IsTermOf (length fields.now)) terms.now }
    requires places { All (λ field. first + length these.old ≤ length field) fields.now }
    requires fields { All (All IsValue) fields.now }
    ensures values { these.new ≡ map (λ step. merge_at terms.now fields.now (first + step)) (range_with_len 0 (length these.old)) }
    ensures within { All IsValue these.new }
{
    let mut factors = [(0, 0); TERMS];
    for step in 0..these.len() {
        these[step] = merge_one(terms, fields, first + step, &mut factors[..terms.len()]);
    }
}

/// The value of a merge at a place.
fn merge_one(
    terms: &[(u16, u16)],
    fields: &[Field],
    place: usize,
    factors: &mut [(i64, i64)],
) -> i64
    requires count { length terms.now ≤ 32 }
    requires terms { All (IsTermOf (length fields.now)) terms.now }
    requires places { All (λ field. place < length field) fields.now }
    requires fields { All (All IsValue) fields.now }
    requires factors { length factors.old ≡ length terms.now }
    ensures value { result ≡ merge_at terms.now fields.now place }
    ensures within { IsValue result }
{
    for k in 0..terms.len() {
        factors[k] = factors_of(terms[k], fields, place);
    }
    merge(factors)
}

/// The two factors of a product at a place.
fn factors_of(term: (u16, u16), fields: &[Field], place: usize) -> (i64, i64)
    requires term { IsTermOf (length fields.now) term }
    requires places { All (λ field. place < length field) fields.now }
    requires fields { All (All IsValue) fields.now }
    ensures value { result ≡ factors_at fields.now place term }
    ensures within { IsTerm result }
{
    (value(fields, term.0, place), value(fields, term.1, place))
}

/// The value of a field at a place.
#[inline(always)]
fn value(fields: &[Field], field: u16, place: usize) -> i64
    requires field { field < length fields.now }
    requires places { All (λ field. place < length field) fields.now }
    requires fields { All (All IsValue) fields.now }
    ensures value { result ≡ value_at (field_at fields.now field) place }
    ensures within { IsValue result }
{
    fields[field as usize].values()[place]
}
