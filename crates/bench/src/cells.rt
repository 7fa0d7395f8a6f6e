//! Values of one formula at many cells, by the call under test and by code that is written out.

ghost use Rattle.std.specs.Prelude.{◌≡◌, ◌+ℤ◌, ◌-ℤ◌, All, IfSome, IsTrue, length};
ghost use Rattle.cpl_base.specs.Numbers.{IsValue, clip};
ghost use Rattle.cpl_formula.specs.Tree.{is_over, value_of};
ghost use Rattle.bench.specs.Flux.{flux};

use cpl_base::{Text, clip, div, mul};
use cpl_formula::{Formula, Parsed, parse, value};
use std::alloc::Global;

/// A flux that spreads over its neighbours, and cools: nine operators over six reads, one of them
/// twice, and three numbers.
const FORMULA: &[u8] =
    b"flux + 0.05 * (flux[1,0] + flux[-1,0] + flux[0,1] + flux[0,-1] - 4 * flux) - temp / 100";

/// The formula reads so many inputs.
const INPUTS: usize = 6;

/// The table holds the inputs of so many cells.
const CELLS: u64 = 1_024;

/// The tree of the formula, as a user's text gives it.
pub fn tree(alloc: Global) -> Option<Formula>
    ensures { IfSome result (λ tree. IsTrue (is_over 6 tree)) }
{
    let flux = Text::of(alloc, b"flux").ok()?;
    let temp = Text::of(alloc, b"temp").ok()?;
    let Parsed { tree, reads } = parse(alloc, FORMULA, &[flux, temp], &[]).ok()?;
    if reads.items().len() == INPUTS {
        Some(tree)
    } else {
        None
    }
}

/// The sum of the values at so many cells, by the call under test.
pub fn formula_sum(tree: &Formula, values: &[i64], cells: u64) -> i64
    requires over { IsTrue (is_over 6 tree.now) }
    requires values { All IsValue values.now }
    requires count { length values.now ≡ 1029 }
{
    let mut sum = 0i64;
    for cell in 0..cells {
        let first = (cell % CELLS) as usize;
        sum = sum.wrapping_add(value(tree, &values[first..first + INPUTS]));
    }
    sum
}

/// The same sum, by the arithmetic written out.
pub fn plain_sum(values: &[i64], cells: u64) -> i64
    requires values { All IsValue values.now }
    requires count { length values.now ≡ 1029 }
{
    let mut sum = 0i64;
    for cell in 0..cells {
        let first = (cell % CELLS) as usize;
        sum = sum.wrapping_add(plain_flux(&values[first..first + INPUTS]));
    }
    sum
}

/// The value of the formula that is measured, at its inputs in the order in which they stand in it.
fn plain_flux(inputs: &[i64]) -> i64
    requires values { All IsValue inputs.now }
    requires count { length inputs.now ≡ 6 }
    ensures { result ≡ value_of inputs.now flux }
{
    let flux = inputs[0];
    let columns = plus(inputs[1], inputs[2]);
    let around = plus(plus(columns, inputs[3]), inputs[4]);
    let bend = less(around, mul(4_000_000, flux));
    less(plus(flux, mul(50_000, bend)), div(inputs[5], 100_000_000))
}

/// The sum of two values.
fn plus(a: i64, b: i64) -> i64
    ensures value { result ≡ clip (a +ℤ b) }
    ensures within { IsValue result }
{
    clip(i128::from(a) + i128::from(b))
}

/// The difference of two values.
fn less(a: i64, b: i64) -> i64
    ensures value { result ≡ clip (a -ℤ b) }
    ensures within { IsValue result }
{
    clip(i128::from(a) - i128::from(b))
}
