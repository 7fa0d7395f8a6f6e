//! Numerals: decimal numbers with at most so many places behind the point, and at most so great.
//!
//! A numeral is read in steps of its last place, as a whole number. Values are numerals of six places,
//! weights of nine.

ghost use Rattle.std.specs.Prelude.{◌≡◌, ◌⊎◌, ◌≤◌, ◌<◌, ◌^◌, Some, None, nat_le, if◌then◌else◌, length, IfOk, IsErrOf, IsTrue, option_map, unsigned_abs};
ghost use Rattle.std.specs.List.{list_all};
ghost use Rattle.cpl_base.specs.Numerals.{Numeral, cut_at, is_digit, numeral_of, numeral_value, parts_of, parts_value, place_digits, steps};

use crate::cuts::{cut, split_sign};
use crate::digits::{decimal, is_decimal};
use crate::value::ValFault;

/// The number that a text denotes, in steps of which a unit has `10^places`: an optional `-`, digits, and
/// optionally a point and one to `places` digits. It is from `-most` to `most`. There are at most 18 places,
/// and `most` is below 2^63. Takes no memory.
///
/// Errors: the first of `ValFault` that holds of the text.
///
/// Source: this project's own.
pub fn read_numeral(places: usize, most: u64, text: &[u8]) -> Result<i64, ValFault>
    requires places { places ≤ 18 }
    requires most { most < 2 ^ 63 }
    // At a numeral, whichever way it is taken apart, the answer is what that numeral denotes or is too much of.
    ensures numeral { (n : Numeral text.now) → result ≡ numeral_value places most n.minus n.units (place_digits n.places) }
    // Any other text is no number.
    ensures other { Numeral text.now ⊎ IsErrOf result ValFault.Digits }
    ensures within { IfOk result (λ z. unsigned_abs z ≤ most) }
    ensures value { result ≡ numeral_of places most text.now }
{
    let (minus, rest) = split_sign(text);
    let (units, digits) = split_point(rest);
    read_parts(places, most, minus, units, digits)
}

/// The text before the point and the text behind it, if there is a point.
fn split_point(text: &[u8]) -> (&[u8], Option<&[u8]>)
    ensures { (result.0.now, option_map (λ p. p.now) result.1) ≡ parts_of text.now (cut_at 46 text.now) }
{
    match cut(text, b'.') {
        None => (text, None),
        Some((units, digits)) => (units, Some(digits)),
    }
}

/// The number of digits and of those behind the point, if there is one.
fn read_parts(
    places: usize,
    most: u64,
    minus: bool,
    units: &[u8],
    digits: Option<&[u8]>,
) -> Result<i64, ValFault>
    requires places { places ≤ 18 }
    requires most { most < 2 ^ 63 }
    ensures { result ≡ parts_value places most minus (units.now, option_map (λ p. p.now) digits.entry) }
{
    if !is_decimal(units) {
        return Err(ValFault::Digits);
    }
    match digits {
        None => signed_steps(places, most, minus, units, b""),
        Some(digits) if is_decimal(digits) => signed_steps(places, most, minus, units, digits),
        Some(_) => Err(ValFault::Digits),
    }
}

/// The number of a numeral in its parts.
fn signed_steps(
    places: usize,
    most: u64,
    minus: bool,
    units: &[u8],
    digits: &[u8],
) -> Result<i64, ValFault>
    requires places { places ≤ 18 }
    requires most { most < 2 ^ 63 }
    requires units { IsTrue (list_all is_digit units.now) }
    requires digits { IsTrue (list_all is_digit digits.now) }
    ensures { result ≡ numeral_value places most minus units.now digits.now }
{
    if digits.len() > places {
        return Err(ValFault::Places);
    }
    let Some(size) = steps_within(places, most, units, digits) else {
        return Err(ValFault::Range);
    };
    let size = size as i64;
    Ok(if minus { -size } else { size })
}

/// The steps of whole units and of the digits behind the point, where they aren't more than the most.
fn steps_within(places: usize, most: u64, units: &[u8], digits: &[u8]) -> Option<u64>
    requires places { places ≤ 18 }
    requires most { most < 2 ^ 63 }
    requires units { IsTrue (list_all is_digit units.now) }
    requires digits { IsTrue (list_all is_digit digits.now) }
    requires few { length digits.now ≤ places }
    ensures { result ≡ (if nat_le (steps places units.now digits.now) most then Some (steps places units.now digits.now) else None) }
{
    let whole = u128::from(decimal(units)) * u128::from(10u64.pow(places as u32));
    let part = u128::from(decimal(digits)) * u128::from(10u64.pow((places - digits.len()) as u32));
    let size = whole + part;
    if size <= u128::from(most) {
        Some(size as u64)
    } else {
        None
    }
}
