//! The table of functions: each by its name, its number of arguments, and what its `)` makes of them.
//!
//! What reads and proves formulas goes by the number of arguments alone, so a further function of as many
//! arguments is a line in each of these tables, and a kind of tree with its value.

ghost use Rattle.std.specs.Prelude.{◌≡◌};
ghost use Rattle.std.specs.Map.{lookup};
ghost use Rattle.std.specs.Str.{bytes_eq};
ghost use Rattle.cpl_formula.specs.Functions.{functions, tree_of_binary, tree_of_ternary, tree_of_unary};

use crate::formula::Formula;
use sqlite_items::Boxed;

/// A function of one argument.
#[derive(Clone, Copy)]
pub enum Unary {
    Abs,
}

/// A function of two arguments.
#[derive(Clone, Copy)]
pub enum Binary {
    Min,
    Max,
}

/// A function of three arguments.
#[derive(Clone, Copy)]
pub enum Ternary {
    Select,
}

/// A function of formulas, by the number of its arguments.
#[derive(Clone, Copy)]
pub enum Function {
    Unary(Unary),
    Binary(Binary),
    Ternary(Ternary),
}

/// The function of a name.
pub fn function_named(name: &[u8]) -> Option<Function>
    ensures { result ≡ lookup (bytes_eq name.now) functions }
{
    match name {
        b"abs" => Some(Function::Unary(Unary::Abs)),
        b"min" => Some(Function::Binary(Binary::Min)),
        b"max" => Some(Function::Binary(Binary::Max)),
        b"sel" => Some(Function::Ternary(Ternary::Select)),
        _ => None,
    }
}

impl Unary {
    /// The function of a tree.
    pub fn tree(self, a: Boxed<Formula>) -> Formula
        ensures { result ≡ tree_of_unary self a }
    {
        match self {
            Unary::Abs => Formula::Abs(a),
        }
    }
}

impl Binary {
    /// The function of two trees.
    pub fn tree(self, a: Boxed<Formula>, b: Boxed<Formula>) -> Formula
        ensures { result ≡ tree_of_binary self a b }
    {
        match self {
            Binary::Min => Formula::Min(a, b),
            Binary::Max => Formula::Max(a, b),
        }
    }
}

impl Ternary {
    /// The function of three trees.
    pub fn tree(self, a: Boxed<Formula>, b: Boxed<Formula>, c: Boxed<Formula>) -> Formula
        ensures { result ≡ tree_of_ternary self a b c }
    {
        match self {
            Ternary::Select => Formula::Select(a, b, c),
        }
    }
}
