//! The calendars, and how long they last.

ghost use Rattle.std.specs.Prelude.{◌≡◌, ◌*◌, ◌^◌, ◌≤◌, ◌<ℤ◌, pos};
ghost use Rattle.cpl_calendar.specs.Calendar.{days_before, end_of_time};

/// A calendar, from 0001-01-01 to the end of the year 9999.
///
/// Source: ESMF Reference Manual, Calendar class.
#[derive(Clone, Copy, Debug, PartialEq, Eq)]
pub enum Cal {
    /// With a leap day in every fourth year, but of the centuries only in every fourth.
    Gregorian,
    /// Every year is a common year, with 365 days.
    NoLeap,
    /// Twelve months of 30 days each.
    Day360,
}

/// The first moment that a calendar doesn't have: the seconds of the years 1 to 9999. It is below 2^40.
///
/// Source: this project's own.
pub fn end_of(cal: Cal) -> i64
    ensures value { result ≡ pos (end_of_time cal) }
    ensures small { result <ℤ pos (2 ^ 40) }
{
    86_400 * i64::from(all_days(cal))
}

/// The days of the years 1 to 9999.
fn all_days(cal: Cal) -> u32
    ensures value { result ≡ days_before cal (12 * 9999) }
    ensures small { result ≤ 3652059 }
{
    match cal {
        Cal::Gregorian => 3_652_059,
        Cal::NoLeap => 365 * 9999,
        Cal::Day360 => 360 * 9999,
    }
}
