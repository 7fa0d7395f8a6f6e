//! Arguments of native rules, one word each.

ghost use Rattle.std.specs.Prelude.{◌≡◌, ◌<◌, ◌^◌, length, option_map, IfOk};
ghost use Rattle.cpl_base.specs.Words.{place_of};
ghost use Rattle.cpl_formula.specs.Arguments.{IsArgument, argument_beside, argument_here, argument_of, cell_argument, is_long_name, is_near, name_word, offset_word, offset_words};
ghost use Rattle.cpl_formula.specs.Tokens.{token_of};

use crate::fault::FormulaFault;
use crate::formula::{FARTHEST, Read, ReadName};
use crate::lexing::token;
use crate::tokens::Token;
use cpl_base::{Text, ValFault, are_name_bytes, cut, is_letter, place_of, read_val, split_sign};

/// What a native rule is given: a number in millionths, or what a formula would read at a cell.
#[derive(Clone, Copy, Debug, PartialEq, Eq)]
pub enum Argument {
    Number(i64),
    Cell(Read),
}

/// The argument of a native rule that a word stands for, over fields and alarms of these names. Takes no
/// memory, and time in the lengths of the word and the names.
///
/// It is a number, with a minus in front or not; a name that a formula reads; or a field's name with two
/// offsets in brackets, each one digit with a minus in front or not, and no blank between. `at` is the place
/// of the word's first byte, which each fault has. There are fewer than 2^16 fields and alarms, whose names need
/// not be distinct.
///
/// Errors: `Syntax` at a word of any other form; `BadNumber` at a number with more than six places or past the
/// range of values; `NameUnknown` at a name that stands for nothing or is a function's, or that has brackets and
/// is no field's; else `FarNeighbour` where an offset isn't from -2 to 2.
///
/// Source: this project's own.
pub fn read_argument(
    word: &[u8],
    at: u32,
    fields: &[Text],
    alarms: &[Text],
) -> Result<Argument, FormulaFault>
    requires fields { length fields.now < 2 ^ 16 }
    requires alarms { length alarms.now < 2 ^ 16 }
    ensures value { result ≡ argument_of fields.now alarms.now at word.now }
    // A number is a value; what is read is among the names given, a neighbour at most two cells away.
    ensures among { IfOk result (IsArgument (length fields.now) (length alarms.now)) }
{
    match read_val(word) {
        Ok(number) => Ok(Argument::Number(number)),
        Err(ValFault::Digits) => read_cell(word, at, fields, alarms),
        Err(_) => Err(FormulaFault::BadNumber { at }),
    }
}

/// What a word that is no number stands for.
fn read_cell(
    word: &[u8],
    at: u32,
    fields: &[Text],
    alarms: &[Text],
) -> Result<Argument, FormulaFault>
    requires fields { length fields.now < 2 ^ 16 }
    requires alarms { length alarms.now < 2 ^ 16 }
    ensures { result ≡ cell_argument fields.now alarms.now at (name_word word.now) }
{
    match name_word(word) {
        None => Err(FormulaFault::Syntax { at }),
        Some((name, None)) => argument_here(at, token(name, false, fields, alarms)),
        Some((name, Some(offsets))) => argument_beside(at, offsets, name, fields),
    }
}

/// A name, with the offsets in brackets behind it if it has any.
fn name_word(word: &[u8]) -> Option<(&[u8], Option<(i8, i8)>)>
    ensures { option_map (λ parts. (parts.0.now, parts.1)) result ≡ name_word word.now }
{
    match cut(word, b'[') {
        None => is_long_name(word).then_some((word, None)),
        Some((name, rest)) => {
            if !is_long_name(name) {
                return None;
            }
            Some((name, Some(offset_words(rest)?)))
        }
    }
}

/// Whether a word is a letter, and then letters, digits and `_`, as many as there are.
fn is_long_name(word: &[u8]) -> bool
    ensures { result ≡ is_long_name word.now }
{
    match word {
        [first, more @ ..] => is_letter(*first) && are_name_bytes(more),
        [] => false,
    }
}

/// The two offsets that stand behind a `[` and before a `]` at the end.
fn offset_words(text: &[u8]) -> Option<(i8, i8)>
    ensures { result ≡ offset_words text.now }
{
    let (column, rest) = cut(text, b',')?;
    let (row, behind) = cut(rest, b']')?;
    if !behind.is_empty() {
        return None;
    }
    let dx = offset_word(column)?;
    let dy = offset_word(row)?;
    Some((dx, dy))
}

/// An offset: one digit, behind a minus or not.
fn offset_word(word: &[u8]) -> Option<i8>
    ensures { result ≡ offset_word word.now }
{
    match split_sign(word) {
        (minus, [digit]) if digit.is_ascii_digit() => {
            let far = (*digit - b'0') as i8;
            Some(if minus { -far } else { far })
        }
        _ => None,
    }
}

/// What a name alone stands for, at the cell itself.
fn argument_here(at: u32, token: Token) -> Result<Argument, FormulaFault>
    ensures { result ≡ argument_here at token }
{
    let name = match token {
        Token::Field(field) => ReadName::Field(field),
        Token::Quantity(name) => name,
        _ => return Err(FormulaFault::NameUnknown { at }),
    };
    Ok(Argument::Cell(Read { name, dx: 0, dy: 0 }))
}

/// A field at a neighbour, if there is a field of that name and the neighbour is near enough.
fn argument_beside(
    at: u32,
    offsets: (i8, i8),
    name: &[u8],
    fields: &[Text],
) -> Result<Argument, FormulaFault>
    requires { length fields.now < 2 ^ 16 }
    ensures { result ≡ argument_beside at offsets (place_of fields.now name.now) }
{
    let (dx, dy) = offsets;
    let Some(field) = place_of(name, fields) else {
        return Err(FormulaFault::NameUnknown { at });
    };
    if !is_near(dx) || !is_near(dy) {
        return Err(FormulaFault::FarNeighbour { at });
    }
    let name = ReadName::Field(field as u16);
    Ok(Argument::Cell(Read { name, dx, dy }))
}

/// Whether an offset is from -2 to 2.
fn is_near(offset: i8) -> bool
    ensures { result ≡ is_near offset }
{
    offset.unsigned_abs() <= FARTHEST
}
