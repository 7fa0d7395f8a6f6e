//! The calendar in which every year is a common year, with 365 days.

ghost use Rattle.std.specs.Prelude.{◌≡◌, ◌-◌, ◌*◌, ◌<◌, ◌≤◌};
ghost use Rattle.cpl_calendar.specs.Calendar.{common_length, days_before, number_if_any};
ghost use Rattle.cpl_calendar.specs.Dates.{IsMonthAt, IsNumbered, IsSpelledDate};
ghost use Rattle.cpl_calendar.specs.declared.calendar.Cal.TheVariants.{NoLeap};

use crate::dates::Date;

/// The days of the year before each month.
const STARTS: [u16; 12] = [0, 31, 59, 90, 120, 151, 181, 212, 243, 273, 304, 334];

/// How many days lie before a date, if its month has that day.
pub fn number_of(date: Date) -> Option<u32>
    requires { IsSpelledDate date }
    ensures { result ≡ number_if_any NoLeap date.year date.month date.day }
{
    if date.day < 1 || date.day > length_of(date.month) {
        return None;
    }
    let years = 365 * (u32::from(date.year) - 1);
    let months = u32::from(start_of(date.month));
    Some(years + months + u32::from(date.day) - 1)
}

/// The date that so many days lie before.
pub fn date_of(number: u32) -> Date
    requires { number < days_before NoLeap (12 * 9999) }
    ensures { IsNumbered NoLeap number result }
{
    let day = (number % 365) as u16;
    let month = month_at(day);
    Date {
        year: (number / 365 + 1) as u16,
        month,
        day: (day - start_of(month) + 1) as u8,
    }
}

/// How many days a month has.
fn length_of(month: u8) -> u8
    ensures { result ≡ common_length month }
{
    match month {
        2 => 28,
        4 | 6 | 9 | 11 => 30,
        _ => 31,
    }
}

/// The days of the year before a month.
fn start_of(month: u8) -> u16
    requires low { 1 ≤ month }
    requires high { month ≤ 12 }
    ensures { result ≡ days_before NoLeap (month - 1) }
{
    STARTS[usize::from(month - 1)]
}

/// The month that has the day of the year, counted from 0.
fn month_at(day: u16) -> u8
    requires { day < 365 }
    ensures { IsMonthAt day result }
{
    for month in 1..12 {
        if day < start_of(month + 1) {
            return month;
        }
    }
    12
}
