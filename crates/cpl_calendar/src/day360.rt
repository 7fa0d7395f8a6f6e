//! The calendar of twelve months of 30 days.

ghost use Rattle.std.specs.Prelude.{◌≡◌, ◌*◌, ◌<◌};
ghost use Rattle.cpl_calendar.specs.Calendar.{days_before, number_if_any};
ghost use Rattle.cpl_calendar.specs.Dates.{IsNumbered, IsSpelledDate};
ghost use Rattle.cpl_calendar.specs.declared.calendar.Cal.TheVariants.{Day360};

use crate::dates::Date;

/// How many days lie before a date, if its month has that day.
pub fn number_of(date: Date) -> Option<u32>
    requires { IsSpelledDate date }
    ensures { result ≡ number_if_any Day360 date.year date.month date.day }
{
    if date.day < 1 || date.day > 30 {
        return None;
    }
    let month = 12 * (u32::from(date.year) - 1) + u32::from(date.month) - 1;
    Some(30 * month + u32::from(date.day) - 1)
}

/// The date that so many days lie before.
pub fn date_of(number: u32) -> Date
    requires { number < days_before Day360 (12 * 9999) }
    ensures { IsNumbered Day360 number result }
{
    Date {
        year: (number / 360 + 1) as u16,
        month: (number / 30 % 12 + 1) as u8,
        day: (number % 30 + 1) as u8,
    }
}
