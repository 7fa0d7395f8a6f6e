//! The operators of formulas.

ghost use Rattle.std.specs.Prelude.{◌-ℤ◌, ◌+ℤ◌, ◌≤◌, pos, unsigned_abs};
ghost use Rattle.std.specs.Int.{int_max, int_min};
ghost use Rattle.cpl_base.specs.Numbers.{clip};
ghost use Rattle.cpl_base.specs.Rounding.{product_of, quotient_of};

use crate::kernels::{Join, Step};
use cpl_base::{Divisor, GREATEST, div, mul};

/// The greatest value, in millionths.
pub(crate) const MOST: i64 = GREATEST as i64;

/// An operator on two values.
#[derive(Clone, Copy)]
pub(crate) enum Operator {
    Plus,
    Less,
    Times,
    Over,
    Min,
    Max,
}

/// The value below 0 for one above, and the other way round.
pub(crate) struct Turned;

impl Step for Turned {
    ghost makes = { λ _ a. pos 0 -ℤ a };

    #[inline(always)]
    fn step(&self, a: i64) -> i64 {
        -a
    }
}

/// A value without its sign.
pub(crate) struct Size;

impl Step for Size {
    ghost makes = { λ _ a. pos (unsigned_abs a) };

    #[inline(always)]
    fn step(&self, a: i64) -> i64 {
        a.abs()
    }
}

/// The quotient by a divisor that is prepared.
impl Step for Divisor {
    ghost makes = { λ by a. quotient_of a by };

    #[inline(always)]
    fn step(&self, a: i64) -> i64 {
        self.quotient_of(a)
    }
}

/// The sum.
pub(crate) struct Sum;

impl Join for Sum {
    ghost joins = { λ _ a b. clip (a +ℤ b) };

    #[inline(always)]
    fn join(&self, a: i64, b: i64) -> i64 {
        (a + b).clamp(-MOST, MOST)
    }
}

/// The difference.
pub(crate) struct Difference;

impl Join for Difference {
    ghost joins = { λ _ a b. clip (a -ℤ b) };

    #[inline(always)]
    fn join(&self, a: i64, b: i64) -> i64 {
        (a - b).clamp(-MOST, MOST)
    }
}

/// The product.
pub(crate) struct Product;

impl Join for Product {
    ghost joins = { λ _ a b. product_of a b };

    #[inline(always)]
    fn join(&self, a: i64, b: i64) -> i64 {
        mul(a, b)
    }
}

/// The quotient.
pub(crate) struct Quotient;

impl Join for Quotient {
    ghost joins = { λ _ a b. quotient_of a b };

    #[inline(always)]
    fn join(&self, a: i64, b: i64) -> i64 {
        div(a, b)
    }
}

/// The lesser value.
pub(crate) struct Least;

impl Join for Least {
    ghost joins = { λ _ a b. int_min a b };

    #[inline(always)]
    fn join(&self, a: i64, b: i64) -> i64 {
        a.min(b)
    }
}

/// The greater value.
pub(crate) struct Greatest;

impl Join for Greatest {
    ghost joins = { λ _ a b. int_max a b };

    #[inline(always)]
    fn join(&self, a: i64, b: i64) -> i64 {
        a.max(b)
    }
}
