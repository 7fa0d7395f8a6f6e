//! Files of weights, read and gone over, and weighted sums by the call under test and by a plain loop of 64 bits.

ghost use Rattle.std.specs.Prelude.{◌≡◌, All, length};
ghost use Rattle.cpl_base.specs.Numbers.{IsValue};

use cpl_base::{Memory, write_number};
use cpl_smm::{WeightFault, Weights, apply_row, read_weights};
use std::alloc::Global;

/// A weight of one has so many billionths.
const BILLION: i64 = 1_000_000_000;

/// A slice of a thousand values begins at each of so many places.
const PLACES: u64 = 1_000;

/// A row has so many factors at most.
const MOST: usize = 16;

/// The text of so many times 1,024 records, of which this many follow one another for one destination cell. They ascend
/// by their destination cells and then by their source cells, of which there are as many.
pub fn text(alloc: Global, rounds: u64, factors: u64) -> Result<Vec<u8>, Memory> {
    let cells = cells(rounds);
    let mut text = Vec::new(alloc);
    for dst in 0..cells {
        let first = dst.min(cells.saturating_sub(factors));
        for k in 0..factors {
            record(&mut text, first.saturating_add(k), dst)?;
        }
    }
    Ok(text)
}

/// A quarter of so many times 1,024 cells.
fn cells(rounds: u64) -> u64 {
    rounds.saturating_mul(256).max(1)
}

/// A record with the weight of a quarter.
fn record(text: &mut Vec<u8>, src: u64, dst: u64) -> Result<(), Memory> {
    write_number(text, u128::from(src) + 1)?;
    text.push(b',')?;
    write_number(text, u128::from(dst) + 1)?;
    text.extend_from_slice(b",0.250000000\n")?;
    Ok(())
}

/// The sum of all numbers of a text, whatever stands between them and whichever points they have.
pub fn plain_pass(text: &[u8]) -> i64 {
    let mut sum = 0i64;
    let mut number = 0i64;
    for byte in text {
        if 48 <= *byte && *byte <= 57 {
            number = number.wrapping_mul(10).wrapping_add(i64::from(*byte - 48));
        } else if *byte != b'.' {
            sum = sum.wrapping_add(number);
            number = 0;
        }
    }
    sum
}

/// The same sum, of the weights that are read from the text.
pub fn read_sum(alloc: Global, text: &[u8], cells: u32) -> i64 {
    match read_weights(alloc, text, cells, cells) {
        Ok(weights) => numbers_sum(&weights),
        Err(_) => -1,
    }
}

/// The sum of all cells and weights.
fn numbers_sum(weights: &Weights) -> i64 {
    let mut sum = 0i64;
    for k in 0..weights.dst_cells() {
        for (src, weight) in weights.row(k + 1) {
            sum = sum
                .wrapping_add(i64::from(*src))
                .wrapping_add(i64::from(k + 1))
                .wrapping_add(*weight);
        }
    }
    sum
}

/// Weights of 256 rows with so many factors each.
pub fn weights(alloc: Global, factors: u64) -> Result<Weights, WeightFault> {
    let text = text(alloc, 1, factors)?;
    read_weights(alloc, text.as_slice(), 256, 256)
}

/// The sum of so many weighted sums by the call under test.
pub fn rows_sum(weights: &Weights, values: &[i64], rows: u64) -> i64
    requires values { All IsValue values.now }
    requires count { length values.now ≡ 1029 }
{
    let cells = u64::from(weights.dst_cells());
    let mut sum = 0i64;
    for k in 0..rows {
        if k % 256 < cells {
            let row = weights.row((k % 256) as u32 + 1);
            let at = (k % PLACES) as usize;
            if row.len() <= MOST {
                sum = sum.wrapping_add(apply_row(row, &values[at..at + row.len()]));
            }
        }
    }
    sum
}

/// The same by a loop of 64 bits.
pub fn plain_rows(weights: &Weights, values: &[i64], rows: u64) -> i64
    requires { length values.now ≡ 1029 }
{
    let cells = u64::from(weights.dst_cells());
    let mut sum = 0i64;
    for k in 0..rows {
        if k % 256 < cells {
            let row = weights.row((k % 256) as u32 + 1);
            let at = (k % PLACES) as usize;
            if row.len() <= MOST {
                sum = sum.wrapping_add(plain_row(row, &values[at..at + row.len()]));
            }
        }
    }
    sum
}

/// The sum of products, rounded to the nearest, in 64 bits and without a look at ranges.
#[inline(never)]
fn plain_row(row: &[(u32, i64)], values: &[i64]) -> i64
    requires { length values.now ≡ length row.now }
{
    let mut sum = 0i64;
    for k in 0..row.len() {
        sum = sum.wrapping_add(row[k].1.wrapping_mul(values[k]));
    }
    sum.wrapping_add(BILLION / 2).div_euclid(BILLION)
}
