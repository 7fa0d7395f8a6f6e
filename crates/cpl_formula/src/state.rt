//! What has been read of a formula, and what may come next.
//!
//! Nothing here reads: `reading` goes from one state to the next.

use crate::formula::Formula;
use crate::functions::{Binary, Function, Ternary, Unary};
use crate::tokens::{ProductSign, SumSign};
use cpl_base::Many;
use sqlite_items::Boxed;

/// A part of a formula that has been read whole. One that is deeper than formulas may be is not kept.
#[derive(Drop)]
pub enum Part {
    Kept { tree: Boxed<Formula>, depth: u8 },
    Deep,
}

/// What stands in front of a `+` or a `-`, with that sign.
#[derive(Drop)]
pub struct Sum {
    pub left: Part,
    pub sign: SumSign,
}

/// What stands in front of a `*` or a `/`, with that sign.
#[derive(Drop)]
pub struct Product {
    pub left: Part,
    pub sign: ProductSign,
}

/// What waits, inside one pair of brackets, for the operand behind it: a sum, a product, and how many
/// minus signs stand in front of the operand. More than 33 count as 33.
#[derive(Drop)]
pub struct Level {
    pub sum: Option<Sum>,
    pub product: Option<Product>,
    pub minus: u8,
}

/// What is being read in an open `(`: a group, or an argument of a function, with those before it.
#[derive(Drop)]
pub enum Opening {
    Group,
    OnlyOf(Unary),
    FirstOfTwo(Binary),
    SecondOfTwo(Binary, Part),
    FirstOfThree(Ternary),
    SecondOfThree(Ternary, Part),
    ThirdOfThree(Ternary, Part, Part),
}

/// An open `(`, and what waits outside of it.
#[derive(Drop)]
pub struct Frame {
    pub level: Level,
    pub opening: Opening,
}

/// What the last token was a part of.
#[derive(Drop)]
pub enum Mode {
    /// An operand may stand here.
    Wanted,
    /// Behind a function's name.
    Called(Function),
    /// Behind a field's name.
    Named(u16),
    /// In brackets, before the digit of the column's offset, which may be behind a minus.
    Column { field: u16, minus: bool },
    /// In brackets, behind the column's offset.
    Between { field: u16, dx: i8 },
    /// In brackets, before the digit of the row's offset.
    Row { field: u16, dx: i8, minus: bool },
    /// In brackets, behind the row's offset.
    Ending { field: u16, dx: i8, dy: i8 },
    /// Behind an operand.
    Behind(Part),
}

/// Where reading stands: the open brackets, the outermost first, what waits in the innermost, and what
/// the last token was.
#[derive(Drop)]
pub struct State {
    pub frames: Many<Frame>,
    pub level: Level,
    pub mode: Mode,
}
