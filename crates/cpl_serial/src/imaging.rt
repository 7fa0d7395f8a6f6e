//! What an import takes of an export, over whole grids.

ghost use Rattle.std.specs.Prelude.{◌≡◌, ◌^◌, ◌≤◌, All, IfSome, None, length, map, take};
ghost use Rattle.std.specs.List.{range_with_len};
ghost use Rattle.cpl_base.specs.Numbers.{IsValue};
ghost use Rattle.cpl_comp.specs.Worlds.{cell_value};
ghost use Rattle.cpl_script.specs.Transfers.{image_at, weighted_value};
ghost use Rattle.cpl_smm.specs.Rows.{IsRow};
ghost use Rattle.cpl_serial.specs.Images.{IsTableOver, gathered_value, row_value};

use cpl_smm::{Weights, apply_row};

/// Writes the image of source values at each destination cell: of equal cells the values themselves, by weights each
/// cell's weighted sum. The values that a row takes from are gathered in the list for them. Takes no memory.
pub(crate) fn take_image(
    weights: &Option<Weights>,
    source: &[i64],
    gathered: &mut [i64],
    image: &mut [i64],
)
    requires few { length source.now ≤ 2 ^ 20 }
    requires cells { length image.old ≤ 2 ^ 20 }
    requires values { All IsValue source.now }
    requires equal { weights.now ≡ None → length source.now ≡ length image.old }
    requires weighted { IfSome weights.now (λ table. IsTableOver table (length source.now) (length image.old)) }
    requires room { length source.now ≤ length gathered.old }
    ensures image { image.new ≡ map (image_at weights.now (cell_value source.now)) (range_with_len 1 (length image.old)) }
    ensures values { All IsValue image.new }
    ensures gathered { length gathered.new ≡ length gathered.old }
{
    match weights {
        None => image.copy_from_slice(source),
        Some(table) => take_rows(table, source, gathered, image),
    }
}

/// Writes what the row of each destination cell makes of source values.
fn take_rows(table: &Weights, source: &[i64], gathered: &mut [i64], image: &mut [i64])
    requires few { length source.now ≤ 2 ^ 20 }
    requires cells { length image.old ≤ 2 ^ 20 }
    requires values { All IsValue source.now }
    requires table { IsTableOver table.now (length source.now) (length image.old) }
    requires room { length source.now ≤ length gathered.old }
    ensures image { image.new ≡ map (row_value table.now source.now) (range_with_len 1 (length image.old)) }
    ensures values { All IsValue image.new }
    ensures gathered { length gathered.new ≡ length gathered.old }
{
    for k in 0..image.len() {
        image[k] = row_image(table.row(k as u32 + 1), source, gathered);
    }
}

/// What a row makes of source values.
fn row_image(row: &[(u32, i64)], source: &[i64], gathered: &mut [i64]) -> i64
    requires few { length source.now ≤ 2 ^ 20 }
    requires values { All IsValue source.now }
    requires row { IsRow (length source.now) row.now }
    requires room { length source.now ≤ length gathered.old }
    ensures value { result ≡ weighted_value (cell_value source.now) row.now }
    ensures within { IsValue result }
    ensures gathered { length gathered.new ≡ length gathered.old }
{
    gather(row, source, gathered);
    apply_row(row, &gathered[..row.len()])
}

/// Puts the source value of each entry of a row to the front of a list, in the row's order.
fn gather(row: &[(u32, i64)], source: &[i64], gathered: &mut [i64])
    requires row { IsRow (length source.now) row.now }
    requires room { length source.now ≤ length gathered.old }
    ensures values { take (length row.now) gathered.new ≡ map (gathered_value source.now) row.now }
    ensures count { length gathered.new ≡ length gathered.old }
{
    for k in 0..row.len() {
        gathered[k] = source[row[k].0 as usize - 1];
    }
}
