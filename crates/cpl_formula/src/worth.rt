//! The value of a formula.
//!
//! Each operator has a function of its own, and an operand chooses its own where it stands: a number or
//! an input takes no call there, and no operator is told apart twice.

ghost use Rattle.std.specs.Prelude.{◌≡◌, ◌<◌, length, IsTrue, unsigned_abs};
ghost use Rattle.std.specs.List.{All};
ghost use Rattle.cpl_base.specs.Numbers.{IsValue, clip, greatest};
ghost use Rattle.cpl_formula.specs.Tree.{is_over, value_of, value_step};
ghost use Rattle.cpl_formula.specs.declared.formula.Formula.TheOpen as level;

use crate::formula::Formula;
use cpl_base::{GREATEST, div, mul};

/// The greatest value, in millionths.
const MOST: i64 = GREATEST as i64;

/// The value of a formula, in millionths, at the values of its inputs. Takes no memory.
///
/// Source: this project's own.
#[inline(always)]
#[cycle(worth)]
pub fn value(tree: &Formula, inputs: &[i64]) -> i64
    requires over { IsTrue (is_over (length inputs.now) tree.now) }
    requires inputs { All IsValue inputs.now }
    ensures value { result ≡ value_of inputs.now tree.now }
    ensures within { IsValue result }
{
    match tree {
        Formula::Number(number) => *number,
        Formula::Input(input) => inputs[*input as usize],
        Formula::Minus(a) => minus(a.get(), inputs),
        Formula::Abs(a) => absolute(a.get(), inputs),
        Formula::Plus(a, b) => plus(a.get(), b.get(), inputs),
        Formula::Less(a, b) => less(a.get(), b.get(), inputs),
        Formula::Times(a, b) => times(a.get(), b.get(), inputs),
        Formula::Over(a, b) => over(a.get(), b.get(), inputs),
        Formula::Min(a, b) => least(a.get(), b.get(), inputs),
        Formula::Max(a, b) => greater(a.get(), b.get(), inputs),
        Formula::Select(condition, a, b) => select(condition.get(), a.get(), b.get(), inputs),
    }
}

/// The value below 0 for one above, and the other way round.
#[cycle(worth)]
fn minus(a: &Formula, inputs: &[i64]) -> i64
    requires a { IsTrue (is_over (length inputs.now) a.now) }
    requires inputs { All IsValue inputs.now }
    ensures value { result ≡ value_step inputs.now (level.Minus (value_of inputs.now a.now)) }
    ensures within { IsValue result }
{
    -value(a, inputs)
}

/// A value without its sign.
#[cycle(worth)]
fn absolute(a: &Formula, inputs: &[i64]) -> i64
    requires a { IsTrue (is_over (length inputs.now) a.now) }
    requires inputs { All IsValue inputs.now }
    ensures value { result ≡ value_step inputs.now (level.Abs (value_of inputs.now a.now)) }
    ensures within { IsValue result }
{
    value(a, inputs).abs()
}

/// A sum.
#[cycle(worth)]
fn plus(a: &Formula, b: &Formula, inputs: &[i64]) -> i64
    requires a { IsTrue (is_over (length inputs.now) a.now) }
    requires b { IsTrue (is_over (length inputs.now) b.now) }
    requires inputs { All IsValue inputs.now }
    ensures value { result ≡ value_step inputs.now (level.Plus (value_of inputs.now a.now) (value_of inputs.now b.now)) }
    ensures within { IsValue result }
{
    within(value(a, inputs) + value(b, inputs))
}

/// A difference.
#[cycle(worth)]
fn less(a: &Formula, b: &Formula, inputs: &[i64]) -> i64
    requires a { IsTrue (is_over (length inputs.now) a.now) }
    requires b { IsTrue (is_over (length inputs.now) b.now) }
    requires inputs { All IsValue inputs.now }
    ensures value { result ≡ value_step inputs.now (level.Less (value_of inputs.now a.now) (value_of inputs.now b.now)) }
    ensures within { IsValue result }
{
    within(value(a, inputs) - value(b, inputs))
}

/// A product.
#[cycle(worth)]
fn times(a: &Formula, b: &Formula, inputs: &[i64]) -> i64
    requires a { IsTrue (is_over (length inputs.now) a.now) }
    requires b { IsTrue (is_over (length inputs.now) b.now) }
    requires inputs { All IsValue inputs.now }
    ensures value { result ≡ value_step inputs.now (level.Times (value_of inputs.now a.now) (value_of inputs.now b.now)) }
    ensures within { IsValue result }
{
    mul(value(a, inputs), value(b, inputs))
}

/// A quotient.
#[cycle(worth)]
fn over(a: &Formula, b: &Formula, inputs: &[i64]) -> i64
    requires a { IsTrue (is_over (length inputs.now) a.now) }
    requires b { IsTrue (is_over (length inputs.now) b.now) }
    requires inputs { All IsValue inputs.now }
    ensures value { result ≡ value_step inputs.now (level.Over (value_of inputs.now a.now) (value_of inputs.now b.now)) }
    ensures within { IsValue result }
{
    div(value(a, inputs), value(b, inputs))
}

/// The lesser of two values.
#[cycle(worth)]
fn least(a: &Formula, b: &Formula, inputs: &[i64]) -> i64
    requires a { IsTrue (is_over (length inputs.now) a.now) }
    requires b { IsTrue (is_over (length inputs.now) b.now) }
    requires inputs { All IsValue inputs.now }
    ensures value { result ≡ value_step inputs.now (level.Min (value_of inputs.now a.now) (value_of inputs.now b.now)) }
    ensures within { IsValue result }
{
    value(a, inputs).min(value(b, inputs))
}

/// The greater of two values.
#[cycle(worth)]
fn greater(a: &Formula, b: &Formula, inputs: &[i64]) -> i64
    requires a { IsTrue (is_over (length inputs.now) a.now) }
    requires b { IsTrue (is_over (length inputs.now) b.now) }
    requires inputs { All IsValue inputs.now }
    ensures value { result ≡ value_step inputs.now (level.Max (value_of inputs.now a.now) (value_of inputs.now b.now)) }
    ensures within { IsValue result }
{
    value(a, inputs).max(value(b, inputs))
}

/// The first of two values where a condition is above 0, else the second.
#[cycle(worth)]
fn select(condition: &Formula, a: &Formula, b: &Formula, inputs: &[i64]) -> i64
    requires condition { IsTrue (is_over (length inputs.now) condition.now) }
    requires a { IsTrue (is_over (length inputs.now) a.now) }
    requires b { IsTrue (is_over (length inputs.now) b.now) }
    requires inputs { All IsValue inputs.now }
    ensures value { result ≡ value_step inputs.now (level.Select (value_of inputs.now condition.now) (value_of inputs.now a.now) (value_of inputs.now b.now)) }
    ensures within { IsValue result }
{
    if value(condition, inputs) > 0 {
        value(a, inputs)
    } else {
        value(b, inputs)
    }
}

/// The value nearest to a number: seldom another than the number, so the rest stands apart.
#[inline(always)]
fn within(number: i64) -> i64
    ensures value { result ≡ clip number }
    ensures within { IsValue result }
{
    if (-MOST..=MOST).contains(&number) {
        number
    } else {
        farthest(number)
    }
}

/// The greatest value, or the least for a number below 0.
#[cold]
#[inline(never)]
fn farthest(number: i64) -> i64
    requires { greatest < unsigned_abs number }
    ensures { result ≡ clip number }
{
    if number < 0 { -MOST } else { MOST }
}
