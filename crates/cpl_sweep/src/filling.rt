//! The values of a formula over one strip.
//!
//! The left part of an operator is worked out in the strip of the whole, the right one in a strip beside it; numbers and
//! runs of fields are read where they stand.

ghost use Rattle.std.specs.Prelude.{◌≡◌, ◌*◌, ◌≤◌, IsTrue, length};
ghost use Rattle.cpl_formula.specs.Tree.{choice_of, is_over};
ghost use Rattle.cpl_sweep.specs.Operators.{made_of};
ghost use Rattle.cpl_sweep.specs.Rows.{rows_of, rows_of_choice, rows_of_two};
ghost use Rattle.cpl_sweep.specs.Strips.{IsReady, IsStrip, strip_value};

use crate::joining::{join, join_number};
use crate::kernels::{choose, each, spread};
use crate::operands::{Inputs, Operand, operand_of};
use crate::operators::{Operator, Size, Turned};
use crate::sweeping::STRIP;
use cpl_formula::Formula;

/// Writes the values of a formula over a strip.
#[cycle(filling)]
pub(crate) fn fill(tree: &Formula, inputs: &Inputs, scratch: &mut [i64], these: &mut [i64])
    requires tree { IsTrue (is_over (length inputs.now.places.now) tree.now) }
    requires ready { IsReady inputs.now (length these.old) }
    requires cells { length these.old ≤ 128 }
    requires scratch { 128 * (rows_of tree.now).beside ≤ length scratch.old }
    ensures { IsStrip (strip_value inputs.now tree.now) these.new }
{
    match tree {
        Formula::Number(_) | Formula::Input(_) => fill_from(tree, inputs, these),
        Formula::Minus(a) => {
            fill(a.get(), inputs, scratch, these);
            each(these, &Turned);
        }
        Formula::Abs(a) => {
            fill(a.get(), inputs, scratch, these);
            each(these, &Size);
        }
        Formula::Plus(a, b) => fill_two(a.get(), b.get(), Operator::Plus, inputs, scratch, these),
        Formula::Less(a, b) => fill_two(a.get(), b.get(), Operator::Less, inputs, scratch, these),
        Formula::Times(a, b) => fill_product(a.get(), b.get(), inputs, scratch, these),
        Formula::Over(a, b) => fill_two(a.get(), b.get(), Operator::Over, inputs, scratch, these),
        Formula::Min(a, b) => fill_two(a.get(), b.get(), Operator::Min, inputs, scratch, these),
        Formula::Max(a, b) => fill_two(a.get(), b.get(), Operator::Max, inputs, scratch, these),
        Formula::Select(condition, a, b) => {
            fill_choice(condition.get(), a.get(), b.get(), inputs, scratch, these)
        }
    }
}

/// Writes what an operator makes of the values of two parts.
#[cycle(filling)]
fn fill_two(
    a: &Formula,
    b: &Formula,
    by: Operator,
    inputs: &Inputs,
    scratch: &mut [i64],
    these: &mut [i64],
)
    requires a { IsTrue (is_over (length inputs.now.places.now) a.now) }
    requires b { IsTrue (is_over (length inputs.now.places.now) b.now) }
    requires ready { IsReady inputs.now (length these.old) }
    requires cells { length these.old ≤ 128 }
    requires scratch { 128 * (rows_of_two (rows_of a.now) (rows_of b.now)).beside ≤ length scratch.old }
    ensures { IsStrip (λ k. made_of by (strip_value inputs.now a.now k) (strip_value inputs.now b.now k)) these.new }
{
    fill(a, inputs, scratch, these);
    match operand_of(b, inputs, these.len()) {
        Operand::Number(number) => join_number(these, number, by),
        Operand::Run(values) => join(these, values, by),
        Operand::Tree => {
            let (own, rest) = scratch.split_at_mut(STRIP);
            let others = &mut own[..these.len()];
            fill(b, inputs, rest, others);
            join(these, others, by);
        }
    }
}

/// Writes products; a number on the left is put behind.
#[cycle(filling)]
fn fill_product(a: &Formula, b: &Formula, inputs: &Inputs, scratch: &mut [i64], these: &mut [i64])
    requires a { IsTrue (is_over (length inputs.now.places.now) a.now) }
    requires b { IsTrue (is_over (length inputs.now.places.now) b.now) }
    requires ready { IsReady inputs.now (length these.old) }
    requires cells { length these.old ≤ 128 }
    requires scratch { 128 * (rows_of_two (rows_of a.now) (rows_of b.now)).beside ≤ length scratch.old }
    ensures { IsStrip (λ k. made_of Operator.Times (strip_value inputs.now a.now k) (strip_value inputs.now b.now k)) these.new }
{
    match operand_of(a, inputs, these.len()) {
        Operand::Number(_) => fill_two(b, a, Operator::Times, inputs, scratch, these),
        _ => fill_two(a, b, Operator::Times, inputs, scratch, these),
    }
}

/// Writes the values of one of two parts, each by a condition.
#[cycle(filling)]
fn fill_choice(
    condition: &Formula,
    a: &Formula,
    b: &Formula,
    inputs: &Inputs,
    scratch: &mut [i64],
    these: &mut [i64],
)
    requires condition { IsTrue (is_over (length inputs.now.places.now) condition.now) }
    requires a { IsTrue (is_over (length inputs.now.places.now) a.now) }
    requires b { IsTrue (is_over (length inputs.now.places.now) b.now) }
    requires ready { IsReady inputs.now (length these.old) }
    requires cells { length these.old ≤ 128 }
    requires scratch { 128 * (rows_of_choice (rows_of condition.now) (rows_of a.now) (rows_of b.now)).beside ≤ length scratch.old }
    ensures { IsStrip (λ k. choice_of (strip_value inputs.now condition.now k) (strip_value inputs.now a.now k) (strip_value inputs.now b.now k)) these.new }
{
    fill(condition, inputs, scratch, these);
    let (own, rest) = scratch.split_at_mut(STRIP);
    let ones = &mut own[..these.len()];
    fill(a, inputs, rest, ones);
    let (own, rest) = rest.split_at_mut(STRIP);
    let others = &mut own[..these.len()];
    fill(b, inputs, rest, others);
    choose(these, ones, others);
}

/// Writes the values of a part that stand elsewhere.
fn fill_from(tree: &Formula, inputs: &Inputs, these: &mut [i64])
    requires tree { IsTrue (is_over (length inputs.now.places.now) tree.now) }
    requires ready { IsReady inputs.now (length these.old) }
    requires own { (rows_of tree.now).own ≡ 0 }
    ensures { IsStrip (strip_value inputs.now tree.now) these.new }
{
    match operand_of(tree, inputs, these.len()) {
        Operand::Number(number) => spread(these, number),
        Operand::Run(values) => these.copy_from_slice(values),
        Operand::Tree => unreachable!(),
    }
}
