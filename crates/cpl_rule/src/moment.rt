//! The moment of an operation, and the numbers that rules read of it.

ghost use Rattle.std.specs.Prelude.{◌≡◌, ℕ, ◌<◌, ◌^◌, ◌+ℤ◌, ◌≤ℤ◌, ◌<ℤ◌, pos, IsTrue, length};
ghost use Rattle.std.specs.Int.{int_div_euclid};
ghost use Rattle.cpl_base.specs.Numbers.{IsValue};
ghost use Rattle.cpl_calendar.specs.Calendar.{InTime, IsTime};
ghost use Rattle.cpl_calendar.specs.Parts.{parts_at};
ghost use Rattle.cpl_comp.specs.Readings.{whole};
ghost use Rattle.cpl_comp.specs.Timing.{day_second, is_alarm_at};
ghost use Rattle.cpl_formula.specs.declared.formula.ReadName.TheVariants as names;
ghost use Rattle.cpl_rule.specs.Moments.{IsMoment, IsTimed, is_number, number_of, timing_of};

use cpl_base::{MILLION, clip};
use cpl_calendar::{Cal, Parts, parts};
use cpl_clock::Alarm;
use cpl_formula::ReadName;
use cpl_grid::Grid;

/// When a run takes place: its calendar, the moment of its start in seconds of the calendar, and its alarms.
///
/// Source: this project's own.
#[derive(Clone, Copy)]
pub struct Times<'a> {
    /// The calendar.
    pub cal: Cal,
    /// The moment of the start.
    pub start: i64,
    /// The alarms.
    pub alarms: &'a [Alarm],
}

/// The moment at which rules read, with the numbers that it has.
///
/// Source: this project's own.
#[derive(Clone, Copy)]
pub struct Moment<'a> {
    /// When the run takes place.
    pub times: Times<'a>,
    /// The moment, in seconds after the start.
    pub at: i64,
    /// For how many seconds the operation leads on.
    pub dt: i64,
    /// The moment's date and time of day.
    pub parts: Parts,
    /// How many midnights lie between the start and the moment, which counts one at which it falls.
    pub midnights: i64,
}

/// The moment that lies `at` seconds after the start of a run, of an operation that leads on for `dt` seconds. Both the
/// start and the moment lie in the calendar, and the moment isn't before the start.
///
/// Source: this project's own.
pub fn moment_at<'a>(times: Times<'a>, at: i64, dt: i64) -> Moment<'a>
    requires { IsTimed times at }
    ensures moment { IsMoment result }
    ensures times { result.times ≡ times.entry }
    ensures at { result.at ≡ at }
    ensures dt { result.dt ≡ dt }
{
    let begun = parts_after(times.cal, times.start, 0);
    let parts = parts_after(times.cal, times.start, at);
    Moment {
        times,
        at,
        dt,
        parts,
        midnights: midnights(at, day_second(begun)),
    }
}

/// The parts of the moment that lies so many seconds after a start.
fn parts_after(cal: Cal, start: i64, seconds: i64) -> Parts
    requires start { pos 0 ≤ℤ start }
    requires seconds { pos 0 ≤ℤ seconds }
    requires within { InTime cal (start +ℤ seconds) }
    ensures value { result ≡ parts_at cal (start +ℤ seconds) }
    ensures time { IsTime cal result }
    ensures few { seconds <ℤ pos (2 ^ 40) }
{
    parts(cal, start + seconds)
}

/// How many midnights lie between a start at this second of its day and the seconds after it.
fn midnights(seconds: i64, begun: u32) -> i64
    requires low { pos 0 ≤ℤ seconds }
    requires few { seconds <ℤ pos (2 ^ 40) }
    ensures { result ≡ int_div_euclid (seconds +ℤ pos begun) (pos 86400) }
{
    (seconds + i64::from(begun)).div_euclid(86_400)
}

/// The second of its day at which a moment of these parts lies.
fn day_second(parts: Parts) -> u32
    ensures { result ≡ day_second parts }
{
    3_600 * u32::from(parts.hour) + 60 * u32::from(parts.minute) + u32::from(parts.second)
}

/// The number, in millionths, that a name stands for at all cells of a grid.
pub(crate) fn number(moment: &Moment, grid: &Grid, name: ReadName) -> i64
    requires moment { IsMoment moment.now }
    requires number { IsTrue (is_number name) }
    requires alarm { (k : ℕ) → name ≡ names.Ring k → k < length moment.now.times.alarms.now }
    ensures value { result ≡ number_of grid.now moment.now name }
    ensures within { IsValue result }
{
    match name {
        ReadName::Nx => whole(i64::from(grid.nx)),
        ReadName::Ny => whole(i64::from(grid.ny)),
        ReadName::Year => whole(i64::from(moment.parts.year)),
        ReadName::Month => whole(i64::from(moment.parts.month)),
        ReadName::Day => whole(i64::from(moment.parts.day)),
        ReadName::Hour => whole(i64::from(moment.parts.hour)),
        ReadName::Minute => whole(i64::from(moment.parts.minute)),
        ReadName::Second => whole(i64::from(moment.parts.second)),
        ReadName::Days => whole(moment.midnights),
        ReadName::DaySecond => whole(i64::from(day_second(moment.parts))),
        ReadName::Dt => whole(moment.dt),
        ReadName::Ring(k) => whole(i64::from(rings(moment, k))),
        ReadName::Field(_) | ReadName::I | ReadName::J | ReadName::S => unreachable!(),
    }
}

/// Whether an alarm rings at a moment.
fn rings(moment: &Moment, alarm: u16) -> bool
    requires moment { IsMoment moment.now }
    requires alarm { alarm < length moment.now.times.alarms.now }
    ensures { result ≡ is_alarm_at (timing_of moment.now.times) alarm moment.now.at }
{
    let times = &moment.times;
    times.alarms[alarm as usize].rings_at(times.cal, times.start, moment.at)
}

/// A whole number as a value: in millionths, the nearest that there is.
pub(crate) fn whole(n: i64) -> i64
    ensures value { result ≡ whole n }
    ensures within { IsValue result }
{
    clip(i128::from(n) * i128::from(MILLION))
}
