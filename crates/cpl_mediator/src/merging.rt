//! Merges: a sum of products, rounded once.

ghost use Rattle.std.specs.Prelude.{◌≡◌, ◌^◌, ◌≤◌, ◌*ℤ◌, All, length, unsigned_abs};
ghost use Rattle.cpl_base.specs.Numbers.{IsValue};
ghost use Rattle.cpl_mediator.specs.Merges.{IsTerm, merge_of};

use cpl_base::{MILLION, clip, near};

/// The sum of the products of values with their factors, all in millionths: the exact sum is rounded once, to the
/// nearest value, and a half goes up. There are at most 32 terms. Takes no memory.
///
/// Source: this project's own.
pub fn merge(terms: &[(i64, i64)]) -> i64
    requires count { length terms.now ≤ 32 }
    requires terms { All IsTerm terms.now }
    ensures value { result ≡ merge_of terms.now }
    ensures within { IsValue result }
{
    let mut sum: i128 = 0;
    for (value, factor) in terms {
        sum += product(*value, *factor);
    }
    clip(near(sum, i128::from(MILLION)))
}

/// The exact product of two values.
#[inline(always)]
fn product(value: i64, factor: i64) -> i128
    requires value { IsValue value }
    requires factor { IsValue factor }
    ensures value { result ≡ value *ℤ factor }
    ensures small { unsigned_abs result ≤ 10 ^ 30 }
{
    i128::from(value) * i128::from(factor)
}
