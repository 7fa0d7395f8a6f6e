//! The tokens of a formula, each as what its names and digits stand for.
//!
//! How a text is cut into them stands in `lexing`, how they make a formula in `reading`.

use crate::formula::ReadName;
use crate::functions::Function;

/// `+` or `-` between two parts; a `-` in front of one is the same token.
#[derive(Clone, Copy)]
pub enum SumSign {
    Plus,
    Less,
}

/// `*` or `/`.
#[derive(Clone, Copy)]
pub enum ProductSign {
    Times,
    Over,
}

/// A token.
#[derive(Clone, Copy)]
pub enum Token {
    Sum(SumSign),
    Product(ProductSign),
    Open,
    Close,
    OpenBracket,
    CloseBracket,
    Comma,
    /// A number of one byte: an offset, or so many units.
    Digit(u8),
    /// A longer number, in millionths.
    Number(i64),
    /// A number of more than six places, or past the range of values.
    BadNumber,
    /// A field, by its place.
    Field(u16),
    /// Another name that stands for a number, without brackets behind it.
    Quantity(ReadName),
    Function(Function),
    /// A name that stands for nothing, or that has brackets and is no field's.
    Unknown,
    /// A byte that begins no token.
    Stray,
}
