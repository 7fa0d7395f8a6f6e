//! Decimal digits: what readers and writers of every format share.

ghost use Rattle.std.specs.Prelude.{◌≡◌, ◌++◌, ◌-◌, ◌^◌, ◌<◌, ◌≤◌, IfSome, IsTrue, length, min, unsigned_abs, OnOk, OnErr, decimal};
ghost use Rattle.std.specs.List.{list_all};
ghost use Rattle.cpl_base.specs.Numerals.{are_digits, is_digit, number, number_between, number_word, signed_number_word};

use crate::cuts::split_sign;
use crate::memory::Memory;
use itoa::Buffer;

/// A number word has at most so many digits.
const MOST_DIGITS: usize = 18;

/// Whether the text is one decimal digit or more, and nothing else. Takes no memory.
///
/// Source: this project's own.
pub fn is_decimal(text: &[u8]) -> bool
    ensures { result ≡ are_digits text.now }
{
    !text.is_empty() && text.iter().all(|byte| 48 <= *byte && *byte <= 57)
}

/// The number that decimal digits write, in base ten; the greatest `u64` stands for all that are as
/// great or greater. Takes no memory.
///
/// Source: this project's own.
pub fn decimal(digits: &[u8]) -> u64
    requires { IsTrue (list_all is_digit digits.now) }
    ensures { result ≡ min (number digits.now) (2 ^ 64 - 1) }
{
    let mut number = 0u64;
    for digit in digits {
        number = number
            .saturating_mul(10)
            .saturating_add(u64::from(*digit - b'0'));
    }
    number
}

/// The number of a number word: one to eighteen decimal digits, of which the first may be zeros. Nothing where
/// the word isn't one. Takes no memory.
///
/// Source: this project's own.
#[tactic(auto, using(crate::proofs::DigitsFacts::eighteen_below))]
pub fn number_word(word: &[u8]) -> Option<u64>
    ensures value { result ≡ number_word word.now }
    ensures below { IfSome result (λ n. n < 10 ^ 18) }
{
    if is_decimal(word) && word.len() <= MOST_DIGITS {
        Some(decimal(word))
    } else {
        None
    }
}

/// The number of a number word, where it is from `least` to `most`; else nothing. Takes no memory.
///
/// Source: this project's own.
pub fn number_between(least: u64, most: u64, word: &[u8]) -> Option<u64>
    ensures value { result ≡ number_between least most word.now }
    ensures within { IfSome result (λ n. (least ≤ n) × (n ≤ most)) }
{
    let number = number_word(word)?;
    if least <= number && number <= most {
        Some(number)
    } else {
        None
    }
}

/// The number of a number word behind a minus or not; nothing where the word isn't one. Takes no memory.
///
/// Source: this project's own.
pub fn signed_number_word(word: &[u8]) -> Option<i64>
    ensures value { result ≡ signed_number_word word.now }
    ensures within { IfSome result (λ z. unsigned_abs z < 10 ^ 18) }
{
    let (minus, rest) = split_sign(word);
    let number = number_word(rest)? as i64;
    Some(if minus { -number } else { number })
}

/// Appends a number in decimal, without leading zeros.
///
/// Source: this project's own.
pub fn write_number(out: &mut Vec<u8>, number: u128) -> Result<(), Memory>
    ensures ok { OnOk result (out.new.items ≡ out.old.items ++ decimal number) }
    ensures err { OnErr result (out.new.items ≡ out.old.items) }
{
    let mut buffer = Buffer::new();
    out.extend_from_slice(buffer.format(number).as_bytes())?;
    Ok(())
}
