//! Sweeps over runs of cells.

ghost use Rattle.std.specs.Prelude.{◌≡◌, ◌*◌, ◌≤◌, All, IsTrue, length};
ghost use Rattle.cpl_base.specs.Numbers.{IsValue};
ghost use Rattle.cpl_formula.specs.Tree.{is_over};
ghost use Rattle.cpl_sweep.specs.Places.{IsPlace, values_over};
ghost use Rattle.cpl_sweep.specs.Rows.{scratch_rows};

use crate::filling::fill;
use crate::operands::Inputs;
use crate::place::Place;
use cpl_field::Field;
use cpl_formula::Formula;

/// A strip has so many cells.
pub const STRIP: usize = 128;

/// Writes the values of a formula, in millionths, at a run of cells: that at the cell `k`, counted from 0, is the
/// formula's at the values that its inputs have there. An input that is the same everywhere has one value; another has
/// those of a field, from a first place on, and these lie within the field. All numbers are values, each input of the
/// formula has a place among `places`, and `scratch` has room for `STRIP` numbers for each of `scratch_rows`. Takes no
/// memory; what stands in the scratch room afterwards is no matter.
///
/// Source: this project's own.
pub fn sweep(
    tree: &Formula,
    places: &[Place],
    fields: &[Field],
    scratch: &mut [i64],
    these: &mut [i64],
)
    requires over { IsTrue (is_over (length places.now) tree.now) }
    requires places { All (IsPlace fields.now (length these.old)) places.now }
    requires fields { All (All IsValue) fields.now }
    requires scratch { 128 * scratch_rows tree.now ≤ length scratch.old }
    ensures values { these.new ≡ values_over places.now fields.now tree.now (length these.old) }
    ensures within { All IsValue these.new }
{
    for strip in 0..these.len().div_ceil(STRIP) {
        let skip = strip * STRIP;
        let end = these.len().min(skip + STRIP);
        let inputs = Inputs {
            places,
            fields,
            skip,
        };
        fill(tree, &inputs, scratch, &mut these[skip..end]);
    }
}
