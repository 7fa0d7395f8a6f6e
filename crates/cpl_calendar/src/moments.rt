//! Moments of a calendar, from their texts and back.

ghost use Rattle.std.specs.Prelude.{◌≡◌, ◌⊎◌, ℕ, ℤ, ◌+◌, ◌*◌, ◌^◌, ◌<◌, ◌<ℤ◌, pos, List, IfOk, IsErrOf};
ghost use Rattle.cpl_calendar.specs.Calendar.{InTime, IsTime, IsTimeAt, end_of_time, moment_of, moment_or_fault};
ghost use Rattle.cpl_calendar.specs.Parts.{parts_at};
ghost use Rattle.cpl_calendar.specs.Texts.{IsForm, Shows, Spells, read_time};

use crate::calendar::Cal;
use crate::dates::{Date, date_of, number_of};
use crate::fault::TimeFault;
use crate::reading::read_form;
use crate::times::Parts;
use crate::writing::write_form;

/// The moment that a text of the form `YYYY-MM-DDThh:mm:ss` writes: the seconds since the beginning of
/// 0001-01-01 in that calendar. Takes no memory.
///
/// Errors, the first that holds: `BadTime` where the text isn't of the form, or its month, hour, minute
/// or second is out of its range; `YearRange` in the year 0; `NoSuchDay` where the month has no such day.
///
/// Source: this project's own.
pub fn moment(cal: Cal, text: &[u8]) -> Result<i64, TimeFault>
    // A text of the form has the moment of its numbers, if the calendar has one.
    ensures form { (p : Parts) → Spells text.now p → result ≡ moment_or_fault cal p }
    // Any other text is no time.
    ensures other { ((p : Parts) × Spells text.now p) ⊎ IsErrOf result TimeFault.BadTime }
    ensures value { result ≡ read_time cal text.now }
    ensures within { IfOk result (InTime cal) }
    ensures small { IfOk result (λ m. m <ℤ pos (2 ^ 40)) }
    // What is read is the text of its moment, and the text of a moment is read as that.
    ensures shows { IfOk result (Shows cal text.now) }
    ensures again { (m : ℤ) → Shows cal text.now m → result ≡ Ok m }
{
    match read_form(text) {
        None => Err(TimeFault::BadTime),
        Some(parts) => moment_or_fault(cal, parts),
    }
}

/// The moment of parts, if the calendar has it.
fn moment_or_fault(cal: Cal, parts: Parts) -> Result<i64, TimeFault>
    requires { IsForm parts }
    ensures { result ≡ moment_or_fault cal parts }
{
    if parts.year == 0 {
        return Err(TimeFault::YearRange);
    }
    let date = Date {
        year: parts.year,
        month: parts.month,
        day: parts.day,
    };
    match number_of(cal, date) {
        None => Err(TimeFault::NoSuchDay),
        Some(number) => Ok(seconds(number, parts)),
    }
}

/// The seconds of so many days and of the time of day.
fn seconds(days: u32, parts: Parts) -> i64
    ensures { result ≡ pos (86400 * days + 3600 * parts.hour + 60 * parts.minute + parts.second) }
{
    86_400 * i64::from(days)
        + 3_600 * i64::from(parts.hour)
        + 60 * i64::from(parts.minute)
        + i64::from(parts.second)
}

/// The parts of a moment of the calendar: its date and time of day. The moment is 0 or later, and before
/// `end_of(cal)`. Takes no memory.
///
/// Source: this project's own.
pub fn parts(cal: Cal, moment: i64) -> Parts
    requires { InTime cal moment }
    ensures time { IsTime cal result }
    ensures value { pos (moment_of cal result) ≡ moment }
    // The same by a function that computes.
    ensures numbers { result ≡ parts_at cal moment }
    // No other parts have this moment.
    ensures unique { (p : Parts) → IsTime cal p → pos (moment_of cal p) ≡ moment → p ≡ result }
{
    parts_after(cal, moment as u64)
}

/// The parts of the time that so many seconds lie before.
fn parts_after(cal: Cal, seconds: u64) -> Parts
    requires { seconds < end_of_time cal }
    ensures { IsTimeAt cal seconds result }
{
    let date = date_of(cal, (seconds / 86_400) as u32);
    let clock = (seconds % 86_400) as u32;
    Parts {
        year: date.year,
        month: date.month,
        day: date.day,
        hour: (clock / 3_600) as u8,
        minute: (clock / 60 % 60) as u8,
        second: (clock % 60) as u8,
    }
}

/// The text of a moment of the calendar, `YYYY-MM-DDThh:mm:ss`. The moment is 0 or later, and before
/// `end_of(cal)`. Takes no memory.
///
/// Source: this project's own.
pub fn text_of(cal: Cal, moment: i64) -> [u8; 19]
    requires { InTime cal moment }
    ensures shows { Shows cal result moment }
    // No other text is that of this moment.
    ensures unique { (text : List ℕ) → Shows cal text moment → text ≡ result }
    // Reading undoes writing.
    ensures read { read_time cal result ≡ Ok moment }
{
    write_form(parts(cal, moment))
}
