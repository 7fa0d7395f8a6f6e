//! The Gregorian calendar, by `jiff`.

ghost use Rattle.std.specs.Prelude.{◌≡◌, ◌*◌, ◌<◌, ◌≤ℤ◌, pos, unsigned_abs};
ghost use Rattle.cpl_calendar.specs.Calendar.{date_number, days_before, number_if_any};
ghost use Rattle.cpl_calendar.specs.Dates.{IsNumbered, IsSpelledDate};
ghost use Rattle.cpl_calendar.specs.declared.calendar.Cal.TheVariants.{Gregorian};

use crate::dates::Date;
use jiff::{ToSpan, civil};

/// The days before 1970-01-01, from which `jiff` counts.
const BEFORE_1970: i32 = 719_162;

/// How many days lie before a date, if its month has that day.
pub fn number_of(date: Date) -> Option<u32>
    requires { IsSpelledDate date }
    ensures { result ≡ number_if_any Gregorian date.year date.month date.day }
{
    match civil::Date::new(date.year as i16, date.month as i8, date.day as i8) {
        Ok(date) => Some(days_before_date(date)),
        Err(_) => None,
    }
}

/// How many days lie before a date of the year 1 or later.
fn days_before_date(date: civil::Date) -> u32
    requires { pos 1 ≤ℤ date.year }
    ensures { result ≡ date_number Gregorian (unsigned_abs date.year) date.month date.day }
{
    (date.to_plain().to_unix_epoch_day() + BEFORE_1970) as u32
}

/// The date that so many days lie before.
pub fn date_of(number: u32) -> Date
    requires { number < days_before Gregorian (12 * 9999) }
    ensures { IsNumbered Gregorian number result }
{
    let first = civil::date(1, 1, 1);
    let date = (first + i64::from(number).days()).to_plain();
    Date {
        year: date.year as u16,
        month: date.month,
        day: date.day,
    }
}
