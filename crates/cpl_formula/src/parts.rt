//! Levels of a formula around parts that have been read, none of them deeper than formulas may be.

ghost use Rattle.std.specs.Prelude.{◌≡◌, IfOk};
ghost use Rattle.cpl_formula.specs.Functions.{tree_of_ternary};
ghost use Rattle.cpl_formula.specs.Steps.{part_around, joined_part, joined_part_of_three, leaf, part_with_minuses, next_minus_count};
ghost use Rattle.cpl_formula.specs.Levels.{tree_around, tree_joined};

use crate::formula::Formula;
use crate::functions::{Binary, Ternary, Unary};
use crate::state::Part;
use crate::tokens::{ProductSign, SumSign};
use sqlite_items::Boxed;
use std::alloc::{AllocError, Global};

/// How deep a formula may be.
const MOST: u8 = 32;

/// What stands around one part.
#[derive(Clone, Copy)]
pub enum Wrap {
    Brackets,
    Minus,
    Call(Unary),
}

/// What joins two parts.
#[derive(Clone, Copy)]
pub enum Join {
    Sum(SumSign),
    Product(ProductSign),
    Call(Binary),
}

/// A part of one level.
pub fn leaf(alloc: Global, tree: Formula) -> Result<Part, AllocError>
    ensures { IfOk result (λ made. made ≡ leaf tree) }
{
    let tree = Boxed::new(alloc, tree)?;
    Ok(Part::Kept { tree, depth: 1 })
}

/// A level around a part.
pub fn around(alloc: Global, level: Wrap, part: Part) -> Result<Part, AllocError>
    ensures { IfOk result (λ made. made ≡ part_around (tree_around level) part) }
{
    match part {
        Part::Kept { tree, depth } if depth < MOST => {
            let tree = match level {
                Wrap::Brackets => tree,
                Wrap::Minus => Boxed::new(alloc, Formula::Minus(tree))?,
                Wrap::Call(function) => Boxed::new(alloc, function.tree(tree))?,
            };
            Ok(Part::Kept {
                tree,
                depth: depth + 1,
            })
        }
        _ => Ok(Part::Deep),
    }
}

/// Two trees, joined.
fn tree_joined(join: Join, a: Boxed<Formula>, b: Boxed<Formula>) -> Formula
    ensures { result ≡ tree_joined join a b }
{
    match join {
        Join::Sum(SumSign::Plus) => Formula::Plus(a, b),
        Join::Sum(SumSign::Less) => Formula::Less(a, b),
        Join::Product(ProductSign::Times) => Formula::Times(a, b),
        Join::Product(ProductSign::Over) => Formula::Over(a, b),
        Join::Call(function) => function.tree(a, b),
    }
}

/// A level around two parts.
pub fn joined(alloc: Global, join: Join, a: Part, b: Part) -> Result<Part, AllocError>
    ensures { IfOk result (λ made. made ≡ joined_part (tree_joined join) a b) }
{
    let (Part::Kept { tree: a, depth: m }, Part::Kept { tree: b, depth: n }) = (a, b) else {
        return Ok(Part::Deep);
    };
    let deepest = m.max(n);
    if deepest >= MOST {
        return Ok(Part::Deep);
    }
    let tree = Boxed::new(alloc, tree_joined(join, a, b))?;
    Ok(Part::Kept {
        tree,
        depth: deepest + 1,
    })
}

/// A function around three parts.
pub fn joined_three(
    alloc: Global,
    function: Ternary,
    a: Part,
    b: Part,
    c: Part,
) -> Result<Part, AllocError>
    ensures { IfOk result (λ made. made ≡ joined_part_of_three (tree_of_ternary function) a b c) }
{
    let (
        Part::Kept { tree: a, depth: l },
        Part::Kept { tree: b, depth: m },
        Part::Kept { tree: c, depth: n },
    ) = (a, b, c) else {
        return Ok(Part::Deep);
    };
    let deepest = l.max(m.max(n));
    if deepest >= MOST {
        return Ok(Part::Deep);
    }
    let tree = Boxed::new(alloc, function.tree(a, b, c))?;
    Ok(Part::Kept {
        tree,
        depth: deepest + 1,
    })
}

/// So many minus signs in front of a part.
pub fn negated(alloc: Global, minus: u8, operand: Part) -> Result<Part, AllocError>
    ensures { IfOk result (λ made. made ≡ part_with_minuses minus operand) }
{
    let mut part = operand;
    for _ in 0..minus {
        part = around(alloc, Wrap::Minus, part)?;
    }
    Ok(part)
}

/// One more minus sign; more than 33 count as 33, since that is too deep already.
pub fn one_more(minus: u8) -> u8
    ensures { result ≡ next_minus_count minus }
{
    if minus > MOST { minus } else { minus + 1 }
}
