//! Sums of kept fields, cell by cell.

ghost use Rattle.std.specs.Prelude.{◌≡◌, ◌+◌, ◌*◌, ◌/◌, ◌^◌, ◌<◌, ◌≤◌, ℕ, pos, negsuc, ◌≤ℤ◌, All, length, map, replicate};
ghost use Rattle.cpl_base.specs.Rounding.{near_of};
ghost use Rattle.cpl_mediator.specs.Averages.{IsSumOf, sums_with};

use cpl_base::near;

/// Adds a number to each sum. So many numbers are in each sum already.
pub(crate) fn add_numbers(sums: &mut [i128], numbers: &[i64], count: u32)
    requires cells { length numbers.now ≡ length sums.old }
    requires count { count < 2 ^ 24 }
    requires sums { All (IsSumOf count) sums.old }
    ensures sums { sums.new ≡ sums_with sums.old numbers.now }
    ensures still { All (IsSumOf (count + 1)) sums.new }
{
    for cell in 0..numbers.len() {
        sums[cell] += i128::from(numbers[cell]);
    }
}

/// Writes the average of each sum, of so many numbers each, and sets the sum to 0.
pub(crate) fn take_averages(sums: &mut [i128], into: &mut [i64], count: u32)
    requires cells { length into.old ≡ length sums.old }
    requires some { 0 < count }
    requires count { count ≤ 2 ^ 24 }
    requires sums { All (IsSumOf count) sums.old }
    ensures averages { into.new ≡ map (λ sum. near_of sum (pos count)) sums.old }
    ensures zero { sums.new ≡ replicate (length sums.old) (pos 0) }
{
    for cell in 0..into.len() {
        into[cell] = average(sums[cell], count);
        sums[cell] = 0;
    }
}

/// A sum this great fits 64 bits, with half a count too.
const NARROW: i128 = 0x7fff_ffff_0000_0000;

/// The whole number nearest to a sum of so many numbers, by their number.
#[inline(always)]
fn average(sum: i128, count: u32) -> i64
    requires some { 0 < count }
    requires count { count ≤ 2 ^ 24 }
    requires sum { IsSumOf count sum }
    ensures { result ≡ near_of sum (pos count) }
{
    if (-NARROW..=NARROW).contains(&sum) {
        narrow_average(sum as i64, count)
    } else {
        near(sum, i128::from(count)) as i64
    }
}

/// The same in 64 bits, by one division.
#[inline(always)]
fn narrow_average(sum: i64, count: u32) -> i64
    requires some { 0 < count }
    requires low { negsuc 9223372032559808512 ≤ℤ sum }
    requires high { sum ≤ℤ pos 9223372032559808512 }
    ensures { result ≡ near_of sum (pos count) }
{
    (sum + i64::from(count / 2)).div_euclid(i64::from(count))
}
