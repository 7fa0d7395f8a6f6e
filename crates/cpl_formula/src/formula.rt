//! What the text of a rule becomes.

use cpl_base::{Many, Text};
use sqlite_items::Boxed;

/// What a formula reads at a cell: a field by its place among the fields, one of the numbers that a
/// cell and a moment have, or an alarm by its place among the alarms.
#[derive(Clone, Copy, Debug, PartialEq, Eq, Hash)]
pub enum ReadName {
    Field(u16),
    I,
    J,
    S,
    Nx,
    Ny,
    Year,
    Month,
    Day,
    Hour,
    Minute,
    Second,
    Days,
    DaySecond,
    Dt,
    Ring(u16),
}

/// The farthest neighbour in one direction.
pub const FARTHEST: u8 = 2;

/// A read, at the cell itself or at a neighbour so many columns and rows away, from -2 to 2 each.
#[derive(Clone, Copy, Debug, PartialEq, Eq, Hash)]
pub struct Read {
    pub name: ReadName,
    pub dx: i8,
    pub dy: i8,
}

/// A tree over numbers, in millionths, and over inputs, by their places among the reads.
#[derive(Debug, Drop)]
pub enum Formula {
    Number(i64),
    Input(u32),
    Minus(Boxed<Formula>),
    Abs(Boxed<Formula>),
    Plus(Boxed<Formula>, Boxed<Formula>),
    Less(Boxed<Formula>, Boxed<Formula>),
    Times(Boxed<Formula>, Boxed<Formula>),
    Over(Boxed<Formula>, Boxed<Formula>),
    Min(Boxed<Formula>, Boxed<Formula>),
    Max(Boxed<Formula>, Boxed<Formula>),
    Select(Boxed<Formula>, Boxed<Formula>, Boxed<Formula>),
}

/// A text that was read: its tree, and what the tree's inputs stand for, each once, in the order in
/// which they first stand in the text.
#[derive(Debug, Drop)]
pub struct Parsed {
    pub tree: Formula,
    pub reads: Many<Read>,
}

/// The label of a native entry, and how many inputs it takes.
#[derive(Debug, Drop)]
pub struct EntrySign {
    pub label: Text,
    pub inputs: u8,
}
