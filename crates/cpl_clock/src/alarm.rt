//! Alarms: when something is due, by the seconds of a run or by the calendar.

ghost use Rattle.std.specs.Prelude.{◌≡◌, ◌↔◌, ◌+ℤ◌, ◌≤ℤ◌, pos, IsTrue};
ghost use Rattle.cpl_calendar.specs.Calendar.{InTime};
ghost use Rattle.cpl_clock.specs.Alarm.{IsRegular, Rings, is_month_begin, is_ringing, is_ringing_every};

use cpl_calendar::{Cal, Parts, parts};

/// When something is due.
///
/// Source: ESMF Reference Manual, Alarm class.
#[derive(Clone, Copy, Debug, PartialEq, Eq)]
pub enum Alarm {
    /// At a number of seconds of the run, and again after each interval.
    Every { first: i64, interval: i64 },
    /// At the first second of each month of the calendar.
    Monthly,
}

impl Alarm {
    /// Whether the alarm rings so many seconds after the start of a run. The first ring and the seconds are
    /// 0 or later, an interval is a second or more, and the moment lies in the calendar.
    ///
    /// Source: ESMF Reference Manual, Alarm class.
    pub fn rings_at(&self, cal: Cal, start: i64, seconds: i64) -> bool
        requires regular { IsRegular self.now }
        requires start_low { pos 0 ≤ℤ start }
        requires seconds_low { pos 0 ≤ℤ seconds }
        requires within { InTime cal (start +ℤ seconds) }
        ensures rings { IsTrue result ↔ Rings self.now cal start seconds }
        // The same by a function that computes.
        ensures value { result ≡ is_ringing self.now cal start seconds }
    {
        match *self {
            Alarm::Every { first, interval } => is_ringing_every(first, interval, seconds),
            Alarm::Monthly => is_month_begin(parts(cal, start + seconds)),
        }
    }
}

/// Whether the seconds since the first ring are a multiple of the interval.
fn is_ringing_every(first: i64, interval: i64, seconds: i64) -> bool
    requires first_low { pos 0 ≤ℤ first }
    requires interval_low { pos 1 ≤ℤ interval }
    requires seconds_low { pos 0 ≤ℤ seconds }
    ensures { result ≡ is_ringing_every first interval seconds }
{
    first <= seconds && (seconds - first) % interval == 0
}

/// Whether the parts are those of the first second of a month.
fn is_month_begin(parts: Parts) -> bool
    ensures { result ≡ is_month_begin parts }
{
    parts.day == 1 && parts.hour == 0 && parts.minute == 0 && parts.second == 0
}
