//! Values: whole millionths within a range, and their texts.
//!
//! What a text denotes stands in the definitions apart from both directions, so that reading and
//! writing are each held to it.

ghost use Rattle.std.specs.Prelude.{◌≡◌, ◌++◌, ◌⊎◌, OnOk, OnErr, IfOk, IsErrOf, Ok};
ghost use Rattle.cpl_base.specs.Numbers.{IsValue, clip, greatest};
ghost use Rattle.cpl_base.specs.Numerals.{Numeral, Writes, numeral_value, place_digits, value_of, value_text};

use crate::memory::Memory;
use crate::numeral::read_numeral;
use itoa::Buffer;
use thiserror::Error;

/// A unit has so many millionths.
pub const MILLION: u64 = 1_000_000;

/// The greatest value, in millionths: a thousand million units. The least is minus that.
pub const GREATEST: u64 = 1_000_000_000_000_000;

/// A value has so many places behind its point.
const PLACES: usize = 6;

/// The text of a number of 128 bits has at most so many bytes.
const MOST_BYTES: usize = 48;

/// Why a text is no value: the first of these that holds.
#[derive(Clone, Copy, Debug, PartialEq, Eq, Error)]
pub enum ValFault {
    /// It isn't an optional minus, digits, and optionally a point and digits.
    #[error("not a decimal number")]
    Digits,
    /// More than six digits follow the point.
    #[error("more than six places behind the point")]
    Places,
    /// It is past a thousand million units.
    #[error("out of the range of values")]
    Range,
}

/// The nearest value, in millionths: values lie between -10^15 and 10^15.
///
/// Source: this project's own.
pub fn clip(n: i128) -> i64
    ensures value { result ≡ clip n }
    ensures within { IsValue result }
{
    let most = i128::from(GREATEST);
    n.clamp(-most, most) as i64
}

/// The value that a text denotes, in millionths: an optional `-`, digits, and optionally a point and
/// one to six digits, in the range of values. Takes no memory.
///
/// Errors: the first of `ValFault` that holds of the text.
///
/// Source: this project's own.
pub fn read_val(text: &[u8]) -> Result<i64, ValFault>
    // At a numeral, whichever way it is taken apart, the answer is what that numeral denotes or is too much of.
    ensures numeral { (n : Numeral text.now) → result ≡ numeral_value 6 greatest n.minus n.units (place_digits n.places) }
    // Any other text is no number.
    ensures other { Numeral text.now ⊎ IsErrOf result ValFault.Digits }
    ensures within { IfOk result IsValue }
    ensures value { result ≡ value_of text.now }
{
    read_numeral(PLACES, GREATEST, text)
}

/// Appends the text of a number of millionths, a value or not: an optional `-`, the whole units
/// without leading zeros, a point and six digits.
///
/// Source: this project's own.
#[tactic(auto, using(crate::proofs::NumeralsFacts::written_writes, crate::proofs::NumeralsFacts::written_again, crate::proofs::DigitsFacts::length_of_million))]
pub fn write_val(out: &mut Vec<u8>, v: i128) -> Result<(), Memory>
    ensures ok { OnOk result (out.new.items ≡ out.old.items ++ value_text v) }
    ensures writes { Writes (value_text v) v }
    ensures again { IsValue v → value_of (value_text v) ≡ Ok v }
    ensures err { OnErr result (out.new.items ≡ out.old.items) }
{
    out.reserve(MOST_BYTES)?;
    let magnitude = v.unsigned_abs();
    let million = u128::from(MILLION);
    if v < 0 {
        out.push(b'-')?;
    }
    let mut buffer = Buffer::new();
    out.extend_from_slice(buffer.format(magnitude / million).as_bytes())?;
    out.push(b'.')?;
    // The digit in front of the six is dropped: it keeps the zeros that they may begin with.
    let six = buffer.format(million + magnitude % million).as_bytes();
    out.extend_from_slice(&six[1..])?;
    Ok(())
}
