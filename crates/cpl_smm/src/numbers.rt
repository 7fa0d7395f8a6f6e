//! Numbers in the fields of a record, each digit looked at once.

ghost use Rattle.std.specs.Prelude.{◌≡◌, ◌+◌, ◌*◌, ◌^◌, ◌<◌, ◌≤◌, IfSome, Some, length};
ghost use Rattle.cpl_base.specs.Numerals.{number_within, number_word, numeral_of, parts_value};
ghost use Rattle.cpl_smm.specs.Records.{weight_in_range};

use cpl_base::{ValFault, cut, read_numeral, split_sign};

/// The greatest weight, a thousand, in billionths.
pub(crate) const GREATEST_WEIGHT: u64 = 1_000_000_000_000;

/// A weight has so many places behind its point.
const PLACES: usize = 9;

/// A weight of one has so many billionths.
const BILLION: u64 = 1_000_000_000;

/// A number word has at most so many digits.
const MOST_DIGITS: usize = 18;

/// The number of a number word; nothing where the word isn't one. It is what `number_word` of `cpl_base` gives, which
/// looks at each digit twice.
#[inline]
pub(crate) fn number_word(word: &[u8]) -> Option<u64>
    ensures value { result ≡ number_word word.now }
    ensures below { IfSome result (λ n. n < 10 ^ length word.now) }
{
    if word.is_empty() || word.len() > MOST_DIGITS {
        return None;
    }
    let mut number = 0u64;
    for byte in word {
        let digit = byte.wrapping_sub(b'0');
        if digit > 9 {
            return None;
        }
        number = number * 10 + u64::from(digit);
    }
    Some(number)
}

/// A weight, if it is in range; nothing at all where the text hasn't the form of one.
pub(crate) fn weight_in_range(text: &[u8]) -> Option<Option<i64>>
    ensures { result ≡ weight_in_range (numeral_of 9 GREATEST_WEIGHT text.now) }
{
    let (minus, rest) = split_sign(text);
    match cut(rest, b'.') {
        Some((units, places)) if units.len() <= MOST_DIGITS && places.len() <= PLACES => {
            parts_in_range(minus, units, places)
        }
        _ => other_in_range(text),
    }
}

/// The same of a text of whatever length and without a point too.
fn other_in_range(text: &[u8]) -> Option<Option<i64>>
    ensures { result ≡ weight_in_range (numeral_of 9 GREATEST_WEIGHT text.now) }
{
    match read_numeral(PLACES, GREATEST_WEIGHT, text) {
        Ok(weight) => Some(Some(weight)),
        Err(ValFault::Range) => Some(None),
        Err(ValFault::Digits | ValFault::Places) => None,
    }
}

/// The same of a sign, whole units, and the places behind a point.
#[inline(always)]
fn parts_in_range(minus: bool, units: &[u8], places: &[u8]) -> Option<Option<i64>>
    requires units { length units.now ≤ 18 }
    requires places { length places.now ≤ 9 }
    ensures { result ≡ weight_in_range (parts_value 9 GREATEST_WEIGHT minus (units.now, Some places.now)) }
{
    let scale = 10u64.pow((PLACES - places.len()) as u32);
    let units = number_word(units)?;
    let part = number_word(places)?;
    Some(signed_in_range(minus, units, part * scale))
}

/// A sign on whole units and on billionths, if that is in range.
#[inline(always)]
fn signed_in_range(minus: bool, units: u64, part: u64) -> Option<i64>
    requires { part ≤ 1000000000000000000 }
    ensures { weight_in_range (number_within GREATEST_WEIGHT minus (units * 1000000000 + part)) ≡ Some result }
{
    if units > 1_000 || units * BILLION + part > GREATEST_WEIGHT {
        return None;
    }
    let size = (units * BILLION + part) as i64;
    Some(if minus { -size } else { size })
}
