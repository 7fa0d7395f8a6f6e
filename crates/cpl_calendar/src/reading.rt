//! Reading the text of a time, `YYYY-MM-DDThh:mm:ss`: six numbers at their places.

ghost use Rattle.std.specs.Prelude.{◌≡◌, ℕ, ◌+◌, ◌<◌, IfNone, IfSome, length};
ghost use Rattle.cpl_calendar.specs.Places.{HasNumber, HasNumberAfter};
ghost use Rattle.cpl_calendar.specs.Texts.{Spells, is_form};

use crate::times::Parts;

/// The parts that a text writes, if it is of the form.
pub fn read_form(text: &[u8]) -> Option<Parts>
    ensures found { IfSome result (Spells text.now) }
    ensures missing { IfNone result ((p : Parts) → ¬ Spells text.now p) }
{
    if text.len() != 19 {
        return None;
    }
    let century = number_at(text, 0)?;
    let year = number_at(text, 2)?;
    let parts = Parts {
        year: 100 * u16::from(century) + u16::from(year),
        month: number_after(b'-', text, 4)?,
        day: number_after(b'-', text, 7)?,
        hour: number_after(b'T', text, 10)?,
        minute: number_after(b':', text, 13)?,
        second: number_after(b':', text, 16)?,
    };
    if is_form(parts) { Some(parts) } else { None }
}

/// Whether a text of the form can write the parts.
fn is_form(parts: Parts) -> bool
    ensures { result ≡ is_form parts }
{
    parts.year <= 9999
        && 1 <= parts.month
        && parts.month <= 12
        && parts.day <= 99
        && parts.hour <= 23
        && parts.minute <= 59
        && parts.second <= 59
}

/// The number that a separator and two digits write at a place, if they stand there.
fn number_after(separator: u8, text: &[u8], place: usize) -> Option<u8>
    requires { place + 2 < length text.now }
    ensures found { IfSome result (HasNumberAfter separator text.now place) }
    ensures missing { IfNone result ((n : ℕ) → ¬ HasNumberAfter separator text.now place n) }
{
    if text[place] != separator {
        return None;
    }
    number_at(text, place + 1)
}

/// The number that two digits write at a place, if they stand there.
fn number_at(text: &[u8], place: usize) -> Option<u8>
    requires { place + 1 < length text.now }
    ensures found { IfSome result (HasNumber text.now place) }
    ensures missing { IfNone result ((n : ℕ) → ¬ HasNumber text.now place n) }
{
    let tens = text[place];
    let ones = text[place + 1];
    if tens.is_ascii_digit() && ones.is_ascii_digit() {
        Some(10 * (tens - b'0') + (ones - b'0'))
    } else {
        None
    }
}
