//! How a text is cut into tokens, what each of them stands for, and what no text may have anywhere.

ghost use Rattle.std.specs.Prelude.{◌≡◌, ◌<◌, ◌≤◌, ◌^◌, codes, length, slice_index, take_while, IsTrue};
ghost use Rattle.std.specs.Map.{lookup};
ghost use Rattle.std.specs.Str.{bytes_eq};
ghost use Rattle.cpl_base.specs.Numerals.{is_digit};
ghost use Rattle.cpl_base.specs.Words.{is_name_byte, place_of, rest_behind};
ghost use Rattle.cpl_formula.specs.Functions.{functions};
ghost use Rattle.cpl_formula.specs.Tokens.{alarm_of, first_token, is_bracketed, is_tangled, name_token, number_length, number_token, open_after, other_token, places_length, quantities, row_after, sign_token, token_length, token_of};

use crate::formula::ReadName;
use crate::functions::function_named;
use crate::tokens::{ProductSign, SumSign, Token};
use cpl_base::{Text, is_blank, is_letter, is_name_byte, place_of, read_val, rest_behind};

/// So many `(` may be open, and so many minus signs may stand in a row.
const MOST: u8 = 32;

/// How many digits a text begins with.
fn digits_length(text: &[u8]) -> usize
    ensures value { result ≡ length (take_while is_digit text.now) }
    ensures within { result ≤ length text.now }
{
    text.iter().take_while(|byte| byte.is_ascii_digit()).count()
}

/// How many bytes of names a text begins with.
fn name_length(text: &[u8]) -> usize
    ensures value { result ≡ length (take_while is_name_byte text.now) }
    ensures within { result ≤ length text.now }
{
    text.iter().take_while(|byte| is_name_byte(**byte)).count()
}

/// How long a point with the digits behind it is at the front of a text; a point counts with them alone.
fn places_length(text: &[u8]) -> usize
    ensures value { result ≡ places_length text.now }
    ensures within { result ≤ length text.now }
{
    match text {
        [b'.', rest @ ..] => match digits_length(rest) {
            0 => 0,
            places => places + 1,
        },
        _ => 0,
    }
}

/// How long the number at the front of a text is.
fn number_length(text: &[u8]) -> usize
    ensures value { result ≡ number_length text.now }
    ensures within { result ≤ length text.now }
    ensures some { length (take_while is_digit text.now) ≤ result }
{
    let digits = digits_length(text);
    digits + places_length(&text[digits..])
}

/// How many bytes the token at the front of a text has, as many as it can have.
pub fn token_length(text: &[u8]) -> usize
    ensures value { result ≡ token_length text.now }
    ensures within { result ≤ length text.now }
    ensures some { 0 < length text.now → 0 < result }
{
    match text {
        [] => 0,
        [first, ..] if first.is_ascii_digit() => number_length(text),
        [first, ..] if is_letter(*first) => name_length(text),
        _ => 1,
    }
}

/// Whether `[` comes next, blanks before it or not.
pub fn is_bracketed(text: &[u8]) -> bool
    ensures { result ≡ is_bracketed text.now }
{
    text.iter().find(|byte| !is_blank(**byte)) == Some(&b'[')
}

/// What a number stands for: a digit alone may be an offset.
fn number_token(word: &[u8]) -> Token
    requires { IsTrue (is_digit (slice_index word.now 0)) }
    ensures { result ≡ number_token word.now }
{
    match word {
        [digit] => Token::Digit(*digit - b'0'),
        _ => match read_val(word) {
            Ok(number) => Token::Number(number),
            Err(_) => Token::BadNumber,
        },
    }
}

/// What a byte stands for that is no digit and no letter.
fn sign_token(byte: u8) -> Token
    ensures { result ≡ sign_token byte }
{
    match byte {
        b'+' => Token::Sum(SumSign::Plus),
        b'-' => Token::Sum(SumSign::Less),
        b'*' => Token::Product(ProductSign::Times),
        b'/' => Token::Product(ProductSign::Over),
        b'(' => Token::Open,
        b')' => Token::Close,
        b'[' => Token::OpenBracket,
        b']' => Token::CloseBracket,
        b',' => Token::Comma,
        _ => Token::Stray,
    }
}

/// What the cell and the moment give under a name.
fn quantity(name: &[u8]) -> Option<ReadName>
    ensures { result ≡ lookup (bytes_eq name.now) quantities }
{
    match name {
        b"i" => Some(ReadName::I),
        b"j" => Some(ReadName::J),
        b"s" => Some(ReadName::S),
        b"nx" => Some(ReadName::Nx),
        b"ny" => Some(ReadName::Ny),
        b"year" => Some(ReadName::Year),
        b"month" => Some(ReadName::Month),
        b"day" => Some(ReadName::Day),
        b"hour" => Some(ReadName::Hour),
        b"minute" => Some(ReadName::Minute),
        b"second" => Some(ReadName::Second),
        b"days" => Some(ReadName::Days),
        b"daysec" => Some(ReadName::DaySecond),
        b"dt" => Some(ReadName::Dt),
        _ => None,
    }
}

/// The place of an alarm, of a name that is `ring_` and the alarm's.
fn alarm(name: &[u8], alarms: &[Text]) -> Option<usize>
    ensures { result ≡ alarm_of alarms.now (rest_behind (codes "ring_") name.now) }
{
    place_of(rest_behind(b"ring_", name)?, alarms)
}

/// What a name stands for that is no field's, with brackets behind it or not.
fn other_token(name: &[u8], bracketed: bool, alarms: &[Text]) -> Token
    requires { length alarms.now < 2 ^ 16 }
    ensures { result ≡ other_token alarms.now name.now bracketed (lookup (bytes_eq name.now) functions) }
{
    if let Some(function) = function_named(name) {
        Token::Function(function)
    } else if bracketed {
        Token::Unknown
    } else if let Some(quantity) = quantity(name) {
        Token::Quantity(quantity)
    } else if let Some(alarm) = alarm(name, alarms) {
        Token::Quantity(ReadName::Ring(alarm as u16))
    } else {
        Token::Unknown
    }
}

/// What a name stands for, with brackets behind it or not.
fn name_token(name: &[u8], bracketed: bool, fields: &[Text], alarms: &[Text]) -> Token
    requires fields { length fields.now < 2 ^ 16 }
    requires alarms { length alarms.now < 2 ^ 16 }
    ensures { result ≡ name_token fields.now alarms.now name.now bracketed (place_of fields.now name.now) }
{
    match place_of(name, fields) {
        Some(field) => Token::Field(field as u16),
        None => other_token(name, bracketed, alarms),
    }
}

/// What a token stands for, by its bytes and whether brackets follow.
pub fn token(word: &[u8], bracketed: bool, fields: &[Text], alarms: &[Text]) -> Token
    requires fields { length fields.now < 2 ^ 16 }
    requires alarms { length alarms.now < 2 ^ 16 }
    ensures { result ≡ token_of fields.now alarms.now word.now bracketed }
{
    match word {
        [] => Token::Stray,
        [first, ..] if first.is_ascii_digit() => number_token(word),
        [first, ..] if is_letter(*first) => name_token(word, bracketed, fields, alarms),
        [first, ..] => sign_token(*first),
    }
}

/// The token at the front of a text that isn't empty, and its length.
pub fn first_token(text: &[u8], fields: &[Text], alarms: &[Text]) -> (Token, usize)
    requires some { 0 < length text.now }
    requires fields { length fields.now < 2 ^ 16 }
    requires alarms { length alarms.now < 2 ^ 16 }
    ensures token { result.0 ≡ first_token fields.now alarms.now text.now }
    ensures length { result.1 ≡ token_length text.now }
    ensures within { result.1 ≤ length text.now }
    ensures some { 0 < result.1 }
{
    let length = token_length(text);
    let (word, rest) = text.split_at(length);
    (token(word, is_bracketed(rest), fields, alarms), length)
}

/// How many `(` are open behind a byte; a `)` that closes nothing changes nothing.
fn open_after(opened: u8, byte: u8) -> u8
    requires { opened ≤ 32 }
    ensures { result ≡ open_after opened byte }
{
    match byte {
        b'(' => opened + 1,
        b')' => opened.saturating_sub(1),
        _ => opened,
    }
}

/// How many minus signs stand in a row behind a byte; blanks between them don't count.
fn row_after(row: u8, byte: u8) -> u8
    requires { row ≤ 32 }
    ensures { result ≡ row_after row byte }
{
    if byte == b'-' {
        row + 1
    } else if is_blank(byte) {
        row
    } else {
        0
    }
}

/// Whether more than 32 `(` are open somewhere, or more than 32 minus signs stand in a row.
pub fn is_tangled(text: &[u8]) -> bool
    ensures { result ≡ is_tangled text.now }
{
    let mut opened = 0;
    let mut row = 0;
    for byte in text {
        opened = open_after(opened, *byte);
        row = row_after(row, *byte);
        if opened > MOST || row > MOST {
            return true;
        }
    }
    false
}
