//! What the tests read their texts with: a few fields and alarms, and values for what is read.

ghost use Rattle.std.specs.Prelude.{◌≡◌, length, IfOk, IsTrue};
ghost use Rattle.std.specs.List.{All};
ghost use Rattle.cpl_base.specs.Numbers.{IsValue};
ghost use Rattle.cpl_formula.specs.Tree.{is_over};

use cpl_base::{Memory, Text};
use cpl_formula::{Argument, FormulaFault, Parsed, parse, read_argument, value};
use std::alloc::Global;
use std::test::Fail;

/// No text of these tests is longer.
const LONGEST: usize = 16_777_216;

/// The greatest value, in millionths.
pub const GREATEST: i64 = 1_000_000_000_000_000;

/// The fields of these tests: `x`, `y`, `flux`, `temp` and `y2`.
fn fields(alloc: Global) -> Result<[Text; 5], Memory> {
    Ok([
        Text::of(alloc, b"x")?,
        Text::of(alloc, b"y")?,
        Text::of(alloc, b"flux")?,
        Text::of(alloc, b"temp")?,
        Text::of(alloc, b"y2")?,
    ])
}

/// Their alarms: `a` and `daily`.
fn alarms(alloc: Global) -> Result<[Text; 2], Memory> {
    Ok([Text::of(alloc, b"a")?, Text::of(alloc, b"daily")?])
}

/// A text over these fields and alarms.
pub fn read(alloc: Global, text: &[u8]) -> Result<Parsed, FormulaFault>
    ensures { IfOk result (λ p. IsTrue (is_over (length p.reads) p.tree)) }
{
    if text.len() > LONGEST {
        return Err(FormulaFault::Memory);
    }
    parse(alloc, text, &fields(alloc)?, &alarms(alloc)?)
}

/// A word at a place, as an argument over these fields and alarms.
pub fn argument(alloc: Global, word: &[u8], at: u32) -> Result<Argument, FormulaFault> {
    read_argument(word, at, &fields(alloc)?, &alarms(alloc)?)
}

/// Whether these are values.
fn are_values(inputs: &[i64]) -> bool
    ensures { IsTrue result → All IsValue inputs.now }
{
    inputs
        .iter()
        .all(|input| -GREATEST <= *input && *input <= GREATEST)
}

/// The value of what was read at the values of its reads, if these are as many.
pub fn worth(parsed: &Parsed, inputs: &[i64]) -> Option<i64>
    requires { IsTrue (is_over (length parsed.now.reads) parsed.now.tree) }
{
    if inputs.len() == parsed.reads.items().len() && are_values(inputs) {
        Some(value(&parsed.tree, inputs))
    } else {
        None
    }
}

/// So many units, each of which is 1.
const ONES: [i64; 8] = [1_000_000; 8];

/// The value of a text where all that is read is 1, or its fault.
pub fn outcome(alloc: Global, text: &[u8]) -> Result<i64, FormulaFault> {
    match &read(alloc, text) {
        Ok(parsed) => {
            let ones = ONES.get(..parsed.reads.items().len()).unwrap_or(&[]);
            worth(parsed, ones).ok_or(FormulaFault::Memory)
        }
        Err(fault) => Err(*fault),
    }
}

/// The text of these pieces, each so many times in a row.
pub fn built(alloc: Global, pieces: &[(&[u8], usize)]) -> Result<Vec<u8>, Fail> {
    let mut text = Vec::new(alloc);
    for (piece, times) in pieces {
        for _ in 0..*times {
            text.extend_from_slice(*piece)?;
        }
    }
    Ok(text)
}
