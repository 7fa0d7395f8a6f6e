//! The sum, the least and the greatest of a field over a block, row by row.

ghost use Rattle.std.specs.Prelude.{◌≡◌, ◌+◌, ◌*◌, ◌^◌, ◌<◌, ◌≤◌, ◌+ℤ◌, fold, length, unsigned_abs};
ghost use Rattle.std.specs.Int.{int_max, int_min};
ghost use Rattle.cpl_block.specs.Frames.{IsFrame, places_in, values_in};
ghost use Rattle.cpl_block.specs.Laws.{row_at_places};
ghost use Rattle.cpl_block.specs.Totals.{greatest_of, least_of, total_of};

use crate::frame::Frame;
use crate::laws::row_laws;

/// The sum of a field's values at the cells of a block, in millionths.
///
/// Source: this project's own.
pub fn sum(frame: &Frame, field: &[i64]) -> i128
    requires frame { IsFrame frame.now }
    requires places { length field.now ≡ places_in frame.now }
    ensures { result ≡ total_of (values_in frame.now field.now) }
{
    row_laws(frame);
    let mut total = 0;
    for b in 0..frame.part.rows.length {
        total = row_sum(total, row_values(frame, field, b));
    }
    total
}

/// The least of a field's values at the cells of a block, in millionths.
///
/// Source: this project's own.
pub fn least(frame: &Frame, field: &[i64]) -> i64
    requires frame { IsFrame frame.now }
    requires places { length field.now ≡ places_in frame.now }
    ensures { result ≡ least_of (values_in frame.now field.now) }
{
    row_laws(frame);
    let mut least = field[frame.first(0, 0) as usize];
    for b in 0..frame.part.rows.length {
        least = row_least(least, row_values(frame, field, b));
    }
    least
}

/// The greatest of a field's values at the cells of a block, in millionths.
///
/// Source: this project's own.
pub fn greatest(frame: &Frame, field: &[i64]) -> i64
    requires frame { IsFrame frame.now }
    requires places { length field.now ≡ places_in frame.now }
    ensures { result ≡ greatest_of (values_in frame.now field.now) }
{
    row_laws(frame);
    let mut greatest = field[frame.first(0, 0) as usize];
    for b in 0..frame.part.rows.length {
        greatest = row_greatest(greatest, row_values(frame, field, b));
    }
    greatest
}

/// The values of a field in row `b` of a block, counted from 0.
///
/// Source: this project's own.
pub fn row_values<'a>(frame: &Frame, field: &'a [i64], b: u32) -> &'a [i64]
    requires frame { IsFrame frame.now }
    requires places { length field.now ≡ places_in frame.now }
    requires row { b < frame.now.part.rows.length }
    ensures value { result.now ≡ row_at_places frame.now field.now b }
    ensures count { length result.now ≡ frame.now.part.columns.length }
{
    let start = frame.first(0, 0) + b * frame.row_length();
    let (_, rest) = field.split_at(start as usize);
    let (row, _) = rest.split_at(frame.part.columns.length as usize);
    row
}

/// The sum of a number and values.
fn row_sum(so_far: i128, row: &[i64]) -> i128
    requires so_far { unsigned_abs so_far ≤ 2 ^ 100 }
    requires row { length row.now ≤ 2 ^ 20 }
    ensures value { result ≡ fold ◌+ℤ◌ so_far row.now }
    ensures few { unsigned_abs result ≤ unsigned_abs so_far + length row.now * 2 ^ 63 }
{
    let mut total = so_far;
    for value in row {
        total = plus(total, *value);
    }
    total
}

/// The sum of a number and a value.
#[inline(always)]
fn plus(so_far: i128, value: i64) -> i128
    requires { unsigned_abs so_far ≤ 2 ^ 110 }
    ensures value { result ≡ so_far +ℤ value }
    ensures few { unsigned_abs result ≤ unsigned_abs so_far + 2 ^ 63 }
{
    so_far + i128::from(value)
}

/// The least of a number and values.
fn row_least(so_far: i64, row: &[i64]) -> i64
    ensures { result ≡ fold int_min so_far row.now }
{
    let mut least = so_far;
    for value in row {
        least = least.min(*value);
    }
    least
}

/// The greatest of a number and values.
fn row_greatest(so_far: i64, row: &[i64]) -> i64
    ensures { result ≡ fold int_max so_far row.now }
{
    let mut greatest = so_far;
    for value in row {
        greatest = greatest.max(*value);
    }
    greatest
}
