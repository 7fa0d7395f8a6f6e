//! Weighted sums of values, exact, and rounded once.

ghost use Rattle.std.specs.Prelude.{◌≡◌, ◌^◌, ◌<◌, ◌≤◌, ◌/◌, ◌*ℤ◌, ◌≤ℤ◌, negsuc, pos, All, length, unsigned_abs};
ghost use Rattle.cpl_base.specs.Numbers.{IsValue, clip};
ghost use Rattle.cpl_base.specs.Rounding.{near_of};
ghost use Rattle.cpl_smm.specs.Records.{IsWeight};
ghost use Rattle.cpl_smm.specs.Sums.{billion, image_of, row_sum};

/// A weight of one has so many billionths.
const BILLION: u64 = 1_000_000_000;

/// The greatest value, times a billion: sums past it are brought to it, and make the greatest value.
const MOST: i128 = 1_000_000_000_000_000_000_000_000;

/// A number of billions above the greatest value.
const SHIFT: i64 = 1_125_899_906_842_624;

/// Half a billion, and `SHIFT` billions.
const LIFT: i128 = 1_125_899_906_842_624_500_000_000;

/// A number of whole billions; twice that, and half a billion, fit 63 bits.
const NARROW: i64 = 4_611_686_018_000_000_000;

/// A billion is this times 512.
const ODD: u64 = 1_953_125;

/// What a row makes of the values of its source cells, which stand in its order: the exact sum of weight times
/// value, rounded once to the nearest whole millionth, a half goes up, and brought into the range of values. There
/// are at most 2^20 entries. Takes no memory.
///
/// Source: ESMF Reference Manual, sparse matrix multiplication; ranges and rounding are this project's own.
pub fn apply_row(row: &[(u32, i64)], values: &[i64]) -> i64
    requires few { length row.now ≤ 2 ^ 20 }
    requires weights { All (λ entry. IsWeight entry.1) row.now }
    requires values { All IsValue values.now }
    requires count { length values.now ≡ length row.now }
    ensures value { result ≡ image_of row.now values.now }
    ensures within { IsValue result }
{
    let mut sum = 0i128;
    for k in 0..row.len() {
        let entry = &row[k];
        let value = &values[k];
        sum += product(entry, value);
    }
    rounded(sum)
}

/// The weight of an entry times a value.
#[inline(always)]
fn product(entry: &(u32, i64), value: &i64) -> i128
    requires weight { IsWeight entry.now.1 }
    requires value { IsValue value.now }
    ensures value { result ≡ entry.now.1 *ℤ value.now }
    ensures within { unsigned_abs result ≤ 1000000000000000000000000000 }
{
    i128::from(entry.1) * i128::from(*value)
}

/// A sum in billionths, rounded to the nearest, as the nearest value.
#[inline(always)]
fn rounded(sum: i128) -> i64
    ensures value { result ≡ clip (near_of sum (pos billion)) }
    ensures within { IsValue result }
{
    match i64::try_from(sum) {
        Ok(sum) if -NARROW <= sum && sum <= NARROW => nearest_narrow(sum),
        _ => nearest(sum.clamp(-MOST, MOST)),
    }
}

/// A sum of 63 bits in billionths, rounded to the nearest. One division by a constant.
#[inline(always)]
fn nearest_narrow(sum: i64) -> i64
    requires least { negsuc 4611686017999999999 ≤ℤ sum }
    requires most { sum ≤ℤ pos 4611686018000000000 }
    ensures value { result ≡ near_of sum (pos billion) }
    ensures within { unsigned_abs result ≤ 4611686018 }
{
    let lifted = (sum + 500_000_000 + NARROW) as u64;
    (lifted / BILLION) as i64 - 4_611_686_018
}

/// A sum in billionths that is no greater than the greatest value is, rounded to the nearest. What is divided isn't
/// below 0 once it is lifted by whole billions.
#[inline(always)]
fn nearest(sum: i128) -> i64
    requires { unsigned_abs sum ≤ 1000000000000000000000000 }
    ensures value { result ≡ near_of sum (pos billion) }
    ensures within { IsValue result }
{
    whole_billions((sum + LIFT) as u128) as i64 - SHIFT
}

/// How often a billion goes into a number. Two divisions of 64 bits by a constant.
#[inline(always)]
fn whole_billions(number: u128) -> u64
    requires { number < 2400000000000000000000000 }
    ensures { result ≡ number / 1000000000 }
{
    let upper = (number >> 41) as u64;
    let lower = ((number >> 9) & 0xffff_ffff) as u64;
    upper / ODD * 0x1_0000_0000 + ((upper % ODD) * 0x1_0000_0000 + lower) / ODD
}
