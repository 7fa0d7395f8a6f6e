//! Sums of products and of quotients of values, by the calls under test and by plain paths.

ghost use Rattle.std.specs.Prelude.{◌^◌, ◌≤◌, pos, ◌<ℤ◌, All, unsigned_abs};
ghost use Rattle.cpl_base.specs.Numbers.{IsValue};

use cpl_base::{Divisor, clip, div, mul};

/// A unit has so many millionths.
const MILLION: i128 = 1_000_000;

/// Products of neighbours by the call under test.
pub fn products(values: &[i64], rounds: u64) -> i64
    requires { All IsValue values.now }
{
    let mut sum = 0i64;
    for _ in 0..rounds {
        for i in 1..values.len() {
            sum = sum.wrapping_add(mul(values[i - 1], values[i]));
        }
    }
    sum
}

/// Quotients of neighbours by the call under test.
pub fn quotients(values: &[i64], rounds: u64) -> i64
    requires { All IsValue values.now }
{
    let mut sum = 0i64;
    for _ in 0..rounds {
        for i in 1..values.len() {
            sum = sum.wrapping_add(div(values[i - 1], values[i]));
        }
    }
    sum
}

/// Quotients of each value by one divisor that is prepared.
pub fn prepared_quotients(values: &[i64], rounds: u64, divisor: Divisor) -> i64
    requires { All IsValue values.now }
{
    let mut sum = 0i64;
    for _ in 0..rounds {
        for value in values {
            sum = sum.wrapping_add(divisor.quotient_of(*value));
        }
    }
    sum
}

/// The same quotients by the divisor as it is.
pub fn quotients_by(values: &[i64], rounds: u64, divisor: i64) -> i64
    requires values { All IsValue values.now }
    requires divisor { IsValue divisor }
{
    let mut sum = 0i64;
    for _ in 0..rounds {
        for value in values {
            sum = sum.wrapping_add(div(*value, divisor));
        }
    }
    sum
}

/// The same products, each in 128 bits.
pub fn plain_products(values: &[i64], rounds: u64) -> i64
    requires { All IsValue values.now }
{
    let mut sum = 0i64;
    for _ in 0..rounds {
        for i in 1..values.len() {
            let product = i128::from(values[i - 1]) * i128::from(values[i]);
            sum = sum.wrapping_add(plain_near(product, MILLION));
        }
    }
    sum
}

/// The same quotients, each in 128 bits.
pub fn plain_quotients(values: &[i64], rounds: u64) -> i64
    requires { All IsValue values.now }
{
    let mut sum = 0i64;
    for _ in 0..rounds {
        for i in 1..values.len() {
            let product = i128::from(values[i - 1]) * MILLION;
            let divisor = i128::from(values[i]);
            if divisor > 0 {
                sum = sum.wrapping_add(plain_near(product, divisor));
            } else if divisor < 0 {
                sum = sum.wrapping_add(plain_near(-product, -divisor));
            }
        }
    }
    sum
}

/// The nearest value to a quotient, by one division of 128 bits.
fn plain_near(n: i128, d: i128) -> i64
    requires number { unsigned_abs n ≤ 2 ^ 120 }
    requires positive { pos 0 <ℤ d }
    requires divisor { unsigned_abs d ≤ 2 ^ 120 }
{
    clip((2 * n + d).div_euclid(2 * d))
}
