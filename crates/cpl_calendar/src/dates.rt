//! Dates, and the days before them, in each calendar.

ghost use Rattle.std.specs.Prelude.{◌≡◌, ◌*◌, ◌<◌};
ghost use Rattle.cpl_calendar.specs.Calendar.{days_before, number_if_any};
ghost use Rattle.cpl_calendar.specs.Dates.{IsNumbered, IsSpelledDate};

use crate::calendar::Cal;
use crate::{common_year, day360, gregorian};

/// A year, a month from 1 and a day from 1.
#[derive(Clone, Copy, Debug)]
pub struct Date {
    pub year: u16,
    pub month: u8,
    pub day: u8,
}

/// How many days lie before a date, if its month has that day.
pub fn number_of(cal: Cal, date: Date) -> Option<u32>
    requires { IsSpelledDate date }
    ensures { result ≡ number_if_any cal date.year date.month date.day }
{
    match cal {
        Cal::Gregorian => gregorian::number_of(date),
        Cal::NoLeap => common_year::number_of(date),
        Cal::Day360 => day360::number_of(date),
    }
}

/// The date that so many days lie before.
pub fn date_of(cal: Cal, number: u32) -> Date
    requires { number < days_before cal (12 * 9999) }
    ensures { IsNumbered cal number result }
{
    match cal {
        Cal::Gregorian => gregorian::date_of(number),
        Cal::NoLeap => common_year::date_of(number),
        Cal::Day360 => day360::date_of(number),
    }
}
