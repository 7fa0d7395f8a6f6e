//! What operators make of the values of a strip and others, or one number: an operator is told apart once a strip, and
//! what can be prepared of a number is prepared once.

ghost use Rattle.std.specs.Prelude.{◌≡◌, ◌*ℤ◌, ◌*◌, ◌≤◌, pos, All, IfSome, length, unsigned_abs};
ghost use Rattle.cpl_base.specs.Numbers.{IsValue, clip, million};
ghost use Rattle.cpl_base.specs.Rounding.{product_of, quotient_of};
ghost use Rattle.cpl_sweep.specs.Kernels.{IsJoined, IsMade};
ghost use Rattle.cpl_sweep.specs.Operators.{made_of};

use crate::kernels::{Step, each, pairs, with_number};
use crate::operators::{Difference, Greatest, Least, MOST, Operator, Product, Quotient, Sum};
use cpl_base::{Divisor, MILLION};

/// Makes of each value and the other one in its place what an operator makes.
pub(crate) fn join(these: &mut [i64], others: &[i64], by: Operator)
    requires count { length others.now ≡ length these.old }
    requires these { All IsValue these.old }
    requires others { All IsValue others.now }
    ensures { IsJoined (made_of by) these.old others.now these.new }
{
    match by {
        Operator::Plus => pairs(these, others, &Sum),
        Operator::Less => pairs(these, others, &Difference),
        Operator::Times => pairs(these, others, &Product),
        Operator::Over => pairs(these, others, &Quotient),
        Operator::Min => pairs(these, others, &Least),
        Operator::Max => pairs(these, others, &Greatest),
    }
}

/// Makes of each value and a number what an operator makes.
pub(crate) fn join_number(these: &mut [i64], number: i64, by: Operator)
    requires number { IsValue number }
    requires these { All IsValue these.old }
    ensures { IsMade (λ a. made_of by a number) these.old these.new }
{
    match by {
        Operator::Plus => with_number(these, number, &Sum),
        Operator::Less => with_number(these, number, &Difference),
        Operator::Times => scale(these, number),
        Operator::Over => divide(these, number),
        Operator::Min => with_number(these, number, &Least),
        Operator::Max => with_number(these, number, &Greatest),
    }
}

/// Multiplies each value by a number.
fn scale(these: &mut [i64], number: i64)
    requires number { IsValue number }
    requires these { All IsValue these.old }
    ensures { IsMade (λ a. product_of a number) these.old these.new }
{
    match Whole::of(number) {
        Some(factor) => each(these, &factor),
        None => with_number(these, number, &Product),
    }
}

/// Divides each value by a number.
fn divide(these: &mut [i64], number: i64)
    requires number { IsValue number }
    requires these { All IsValue these.old }
    ensures { IsMade (λ a. quotient_of a number) these.old these.new }
{
    match Divisor::new(number) {
        Some(divisor) => each(these, &divisor),
        None => with_number(these, number, &Quotient),
    }
}

/// A whole factor is at most so great, so that products by it fit 64 bits.
const MOST_WHOLE: i64 = 9_000;

/// A factor of whole units that is small: a product by it takes no division.
#[derive(Drop)]
struct Whole {
    /// The factor, in units.
    factor: i64,
    ghost small: { unsigned_abs factor ≤ 9000 },
}

impl Whole {
    /// The factor, or nothing where it isn't whole or isn't small.
    fn of(number: i64) -> Option<Whole>
        ensures { IfSome result (λ whole. number ≡ whole.factor *ℤ pos million) }
    {
        let million = MILLION as i64;
        let factor = number / million;
        if number % million != 0 || !(-MOST_WHOLE..=MOST_WHOLE).contains(&factor) {
            return None;
        }
        Some(Whole { factor })
    }
}

impl Step for Whole {
    ghost makes = { λ whole a. product_of a (whole.factor *ℤ pos million) };

    #[inline(always)]
    fn step(&self, a: i64) -> i64 {
        (a * self.factor).clamp(-MOST, MOST)
    }
}
