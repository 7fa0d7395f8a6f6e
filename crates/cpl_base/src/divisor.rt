//! A divisor that is prepared once and divides many values.
//!
//! In place of a division each quotient takes two multiplications: a first guess by the divisor's
//! reciprocal, which is the quotient or one less than it.

ghost use Rattle.std.specs.Prelude.{◌≡◌, ◌-◌, ◌*◌, ◌/◌, ◌^◌, ◌≤◌, IfSome, IfNone, min, not};
ghost use Rattle.cpl_base.specs.Numbers.{IsValue, greatest, million};
ghost use Rattle.cpl_base.specs.Numerals.{signed_integer};
ghost use Rattle.cpl_base.specs.Prepared.{IsPrepared};
ghost use Rattle.cpl_base.specs.Rounding.{IsThousandths, nearest_size, quotient_of};

use crate::value::GREATEST;
use std::marker::Model;

/// So many numbers fit 64 bits.
const WIDE: u128 = 0x1_0000_0000_0000_0000;

/// A divisor of values, prepared: a whole number of thousandths above 0. Contracts see it as the divisor, in
/// millionths.
///
/// Source: this project's own.
#[derive(Clone, Copy, Debug)]
pub struct Divisor {
    /// The divisor, in thousandths.
    thousandths: u64,
    /// How often twice that goes into the greatest `u64`.
    reciprocal: u64,
}

impl Model for Divisor {
    ghost use Rattle.std.specs.Prelude.{ℤ, pos, unsigned_abs, ◌*◌, ◌-◌, ◌/◌, ◌^◌};
    ghost use Rattle.cpl_base.specs.Numerals.{signed_integer};
    ghost use Rattle.cpl_base.specs.Prepared.{IsPrepared};

    ghost Value = { ℤ };

    ghost view = { λ d. pos (1000 * d.thousandths) };

    ghost invariant = { λ d. IsPrepared d.thousandths d.reciprocal };

    ghost inverse = { λ z. let t = unsigned_abs z / 1000 in record { thousandths = t; reciprocal = (2 ^ 64 - 1) / (2 * t) } };
}

impl Divisor {
    /// Prepares a divisor, or nothing exactly where it isn't a whole number of thousandths above 0. It is a value in
    /// millionths. Takes no memory.
    ///
    /// Source: this project's own.
    pub fn new(divisor: i64) -> Option<Divisor>
        requires { IsValue divisor }
        ensures prepared { IfSome result (λ d. (d ≡ divisor) × IsThousandths divisor) }
        ensures other { IfNone result (¬ IsThousandths divisor) }
    {
        let size = divisor.unsigned_abs();
        if divisor <= 0 || size % 1000 != 0 {
            return None;
        }
        let thousandths = size / 1000;
        Some(Divisor {
            thousandths,
            reciprocal: u64::MAX / (2 * thousandths),
        })
    }

    /// The quotient of a value by this divisor, as `div` gives it. Takes no memory.
    ///
    /// Source: this project's own.
    #[inline]
    pub fn quotient_of(&self, a: i64) -> i64
        requires { IsValue a }
        ensures value { result ≡ quotient_of a self.now }
        ensures within { IsValue result }
    {
        signed_quotient(self.thousandths, self.reciprocal, a < 0, a.unsigned_abs())
    }
}

/// A sign on the size of a value's quotient by so many thousandths, rounded, and at most the greatest value.
#[inline(always)]
fn signed_quotient(thousandths: u64, reciprocal: u64, minus: bool, size: u64) -> i64
    requires prepared { IsPrepared thousandths reciprocal }
    requires size { size ≤ greatest }
    ensures { result ≡ signed_integer minus (min (nearest_size (not minus) (size * million) (1000 * thousandths)) greatest) }
{
    let size = nearest(thousandths, reciprocal, size, !minus).min(GREATEST) as i64;
    if minus { -size } else { size }
}

/// The size of a value's quotient by so many thousandths, rounded to the nearest.
#[inline(always)]
fn nearest(thousandths: u64, reciprocal: u64, size: u64, half_up: bool) -> u64
    requires prepared { IsPrepared thousandths reciprocal }
    requires size { size ≤ greatest }
    ensures { result ≡ nearest_size half_up (size * million) (1000 * thousandths) }
{
    let half = if half_up {
        thousandths
    } else {
        thousandths - 1
    };
    whole(2 * thousandths, reciprocal, 2000 * size + half)
}

/// How often a divisor goes into a number.
#[inline(always)]
fn whole(by: u64, reciprocal: u64, number: u64) -> u64
    requires some { 1 ≤ by }
    requires few { by ≤ 2000000000000 }
    requires reciprocal { reciprocal ≡ (2 ^ 64 - 1) / by }
    ensures { result ≡ number / by }
{
    let guess = (u128::from(number) * u128::from(reciprocal) / WIDE) as u64;
    if number - guess * by < by {
        guess
    } else {
        guess + 1
    }
}
