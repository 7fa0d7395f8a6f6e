//! Writing the text of a time, `YYYY-MM-DDThh:mm:ss`.

ghost use Rattle.std.specs.Prelude.{◌≡◌, ◌+◌, ◌/◌, ◌%◌};
ghost use Rattle.cpl_calendar.specs.Texts.{IsForm, text_of_parts};

use crate::times::Parts;

/// The text of parts that are of the form.
pub fn write_form(parts: Parts) -> [u8; 19]
    requires { IsForm parts }
    ensures { result ≡ text_of_parts parts }
{
    let century = (parts.year / 100) as u8;
    let year = (parts.year % 100) as u8;
    [
        tens(century),
        ones(century),
        tens(year),
        ones(year),
        b'-',
        tens(parts.month),
        ones(parts.month),
        b'-',
        tens(parts.day),
        ones(parts.day),
        b'T',
        tens(parts.hour),
        ones(parts.hour),
        b':',
        tens(parts.minute),
        ones(parts.minute),
        b':',
        tens(parts.second),
        ones(parts.second),
    ]
}

/// The first of two digits.
fn tens(number: u8) -> u8
    ensures { result ≡ 48 + number / 10 }
{
    b'0' + number / 10
}

/// The second of two digits.
fn ones(number: u8) -> u8
    ensures { result ≡ 48 + number % 10 }
{
    b'0' + number % 10
}
