//! Quotients rounded to the nearest whole number, and products and quotients of values.
//!
//! A sign and a size stand for a number here, and what fits 64 bits is divided in 64 bits.

ghost use Rattle.std.specs.Prelude.{◌≡◌, ◌^◌, ◌<◌, ◌≤◌, pos, ◌+ℤ◌, ◌*ℤ◌, ◌<ℤ◌, ◌≤ℤ◌, ◌*◌, negsuc, min, not, unsigned_abs};
ghost use Rattle.cpl_base.specs.Numbers.{IsValue, greatest, million};
ghost use Rattle.cpl_base.specs.Numerals.{signed_integer};
ghost use Rattle.cpl_base.specs.Rounding.{near_of, nearest_size, product_of, quotient_of};

use crate::value::{GREATEST, MILLION};

/// A number of whole millions; twice that, and half a million, fit 63 bits.
const SHIFT: i64 = 4_611_686_018_427_000_000;

/// The greatest number of 64 bits.
const NARROW: u128 = 0xffff_ffff_ffff_ffff;

/// The whole number nearest to `n / d`; a half goes up. Takes no memory.
///
/// Source: this project's own.
pub fn near(n: i128, d: i128) -> i128
    requires number { unsigned_abs n ≤ 2 ^ 120 }
    requires positive { pos 0 <ℤ d }
    requires divisor { unsigned_abs d ≤ 2 ^ 120 }
    ensures value { result ≡ near_of n d }
    // What that is, without a division.
    ensures low { (pos 2 *ℤ d *ℤ result) ≤ℤ (pos 2 *ℤ n +ℤ d) }
    ensures high { (pos 2 *ℤ n +ℤ d) <ℤ (pos 2 *ℤ d *ℤ result +ℤ pos 2 *ℤ d) }
{
    let minus = n < 0;
    let size = nearest(n.unsigned_abs(), d.unsigned_abs(), !minus) as i128;
    if minus { -size } else { size }
}

/// The product of two values, both in millionths: the nearest value, a half goes up. Takes no memory.
///
/// Source: this project's own.
#[inline]
pub fn mul(a: i64, b: i64) -> i64
    requires a { IsValue a }
    requires b { IsValue b }
    ensures value { result ≡ product_of a b }
    ensures within { IsValue result }
{
    match a.checked_mul(b) {
        Some(product) if (-SHIFT..=SHIFT).contains(&product) => whole_millions(product),
        _ => wide_product(a, b),
    }
}

/// The quotient of two values, both in millionths: the nearest value, a half goes up; 0 where the
/// divisor is 0. Takes no memory.
///
/// Source: this project's own.
#[inline]
pub fn div(a: i64, b: i64) -> i64
    requires a { IsValue a }
    requires b { IsValue b }
    ensures value { result ≡ quotient_of a b }
    ensures within { IsValue result }
{
    if b == 0 {
        return 0;
    }
    let minus = (a < 0) != (b < 0);
    scaled(minus, a.unsigned_abs(), MILLION, b.unsigned_abs())
}

/// The product of two values, by a sign and two sizes.
fn wide_product(a: i64, b: i64) -> i64
    requires a { IsValue a }
    requires b { IsValue b }
    ensures value { result ≡ product_of a b }
    ensures within { IsValue result }
{
    let minus = (a < 0) != (b < 0);
    scaled(minus, a.unsigned_abs(), b.unsigned_abs(), MILLION)
}

/// The whole number of millions that is nearest; a half goes up. One division by a constant, of a number
/// that isn't below 0 once it is shifted by whole millions.
#[inline(always)]
fn whole_millions(number: i64) -> i64
    requires least { negsuc 4611686018426999999 ≤ℤ number }
    requires most { number ≤ℤ pos 4611686018427000000 }
    ensures value { result ≡ near_of number (pos million) }
    ensures within { IsValue result }
{
    let shifted = (number + 500_000 + SHIFT) as u64;
    (shifted / MILLION) as i64 - 4_611_686_018_427
}

/// A sign on `size * by / d`, rounded, and at the greatest value at the most.
#[inline(always)]
fn scaled(minus: bool, size: u64, by: u64, d: u64) -> i64
    requires size { size ≤ greatest }
    requires by { by ≤ greatest }
    requires nonzero { 0 < d }
    requires divisor { d ≤ greatest }
    ensures { result ≡ signed_integer minus (min (nearest_size (not minus) (size * by) d) greatest) }
{
    let product = u128::from(size) * u128::from(by);
    let size = nearest(product, u128::from(d), !minus).min(u128::from(GREATEST)) as i64;
    if minus { -size } else { size }
}

/// The size of a quotient, rounded to the nearest, in 64 bits where both numbers fit them.
#[inline(always)]
fn nearest(size: u128, d: u128, half_up: bool) -> u128
    requires size { size ≤ 2 ^ 120 }
    requires nonzero { 0 < d }
    requires divisor { d ≤ 2 ^ 120 }
    ensures { result ≡ nearest_size half_up size d }
{
    if size <= NARROW && d <= NARROW {
        u128::from(nearest_narrow(size as u64, d as u64, half_up))
    } else if half_up {
        (2 * size + d) / (2 * d)
    } else {
        (2 * size + d - 1) / (2 * d)
    }
}

/// The size of a quotient of 64 bits, rounded to the nearest.
#[inline(always)]
fn nearest_narrow(size: u64, d: u64, half_up: bool) -> u64
    requires { 0 < d }
    ensures { result ≡ nearest_size half_up size d }
{
    let whole = size / d;
    let rest = size % d;
    let passes = if half_up {
        d - rest <= rest
    } else {
        d - rest < rest
    };
    if passes { whole + 1 } else { whole }
}
