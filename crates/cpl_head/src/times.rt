//! The calendar of a run, its start, how long it lasts, and its step.

ghost use Rattle.std.specs.Prelude.{◌≡◌, ◌≤◌, ◌≤ℤ◌, ◌<ℤ◌, pos, IfOk, IfSome, option_copied};
ghost use Rattle.cpl_calendar.specs.Calendar.{InTime, moment_of};
ghost use Rattle.cpl_head.specs.Times.{IsStep, calendar_in, calendar_word, first_of_2000, moment_in, room_after, span_in, start_in, step_words, time_fault, time_step_in};

use crate::fault::HeadFault;
use cpl_base::{Text, number_between};
use cpl_calendar::{Cal, TimeFault, moment};
use cpl_config::Row;

/// The start of a run, where none is given.
const DEFAULT_START: &[u8] = b"2000-01-01T00:00:00";

/// The greatest step, in seconds.
const MOST_STEP: u64 = 1_000_000_000;

/// The calendar that the one word of a row names; the Gregorian, where there is no row.
pub(crate) fn calendar_in(row: Option<&Row>) -> Result<Cal, HeadFault>
    ensures { result ≡ calendar_in (option_copied row.entry) }
{
    let Some(row) = row else {
        return Ok(Cal::Gregorian);
    };
    let line = row.line;
    let [word] = row.words.items() else {
        return Err(HeadFault::BadValue { line });
    };
    match calendar_word(word.bytes()) {
        Some(cal) => Ok(cal),
        None => Err(HeadFault::BadValue { line }),
    }
}

/// The calendar that a word names.
fn calendar_word(word: &[u8]) -> Option<Cal>
    ensures { result ≡ calendar_word word.now }
{
    if word == b"gregorian".as_slice() {
        Some(Cal::Gregorian)
    } else if word == b"noleap".as_slice() {
        Some(Cal::NoLeap)
    } else if word == b"360day".as_slice() {
        Some(Cal::Day360)
    } else {
        None
    }
}

/// The moment at which a run starts; the first second of the year 2000, where there is no row.
pub(crate) fn start_in(cal: Cal, row: Option<&Row>) -> Result<i64, HeadFault>
    ensures value { result ≡ start_in cal (option_copied row.entry) }
    ensures within { IfOk result (InTime cal) }
{
    match row {
        None => Ok(default_start(cal)),
        Some(row) => moment_in(cal, row),
    }
}

/// The moment at which a run starts, where none is given.
fn default_start(cal: Cal) -> i64
    ensures value { result ≡ pos (moment_of cal first_of_2000) }
    ensures within { InTime cal result }
{
    moment(cal, DEFAULT_START).unwrap()
}

/// The seconds from the start to the stop, where there is a row.
pub(crate) fn span_in(cal: Cal, start: i64, row: Option<&Row>) -> Result<Option<i64>, HeadFault>
    requires { InTime cal start }
    ensures value { result ≡ span_in cal start (option_copied row.entry) }
    ensures least { IfOk result (λ span. IfSome span (λ s. pos 1 ≤ℤ s)) }
    ensures below { IfOk result (λ span. IfSome span (λ s. s <ℤ room_after cal start)) }
{
    let Some(row) = row else {
        return Ok(None);
    };
    let stop = moment_in(cal, row)?;
    if stop <= start {
        return Err(HeadFault::StopNotAfter { line: row.line });
    }
    Ok(Some(stop - start))
}

/// The moment that the one word of a row writes.
fn moment_in(cal: Cal, row: &Row) -> Result<i64, HeadFault>
    ensures value { result ≡ moment_in cal row.now }
    ensures within { IfOk result (InTime cal) }
{
    let line = row.line;
    let [word] = row.words.items() else {
        return Err(HeadFault::BadValue { line });
    };
    match moment(cal, word.bytes()) {
        Ok(moment) => Ok(moment),
        Err(fault) => Err(time_fault(line, fault)),
    }
}

/// Why the word in a line is no time of the calendar.
fn time_fault(line: u32, fault: TimeFault) -> HeadFault
    ensures { result ≡ time_fault line fault }
{
    match fault {
        TimeFault::BadTime => HeadFault::BadTime { line },
        TimeFault::YearRange => HeadFault::YearRange { line },
        TimeFault::NoSuchDay => HeadFault::NoSuchDay { line },
    }
}

/// The step of the run, where there is a row.
pub(crate) fn time_step_in(row: Option<&Row>) -> Result<Option<i64>, HeadFault>
    ensures value { result ≡ time_step_in (option_copied row.entry) }
    ensures step { IfOk result (λ step. IfSome step IsStep) }
{
    let Some(row) = row else {
        return Ok(None);
    };
    match step_words(row.words.items()) {
        Some(seconds) => Ok(Some(seconds as i64)),
        None => Err(HeadFault::BadValue { line: row.line }),
    }
}

/// The one number of seconds, from 1 to a thousand million.
fn step_words(words: &[Text]) -> Option<u64>
    ensures value { result ≡ step_words words.now }
    ensures least { IfSome result (λ seconds. 1 ≤ seconds) }
    ensures most { IfSome result (λ seconds. seconds ≤ 1000000000) }
{
    match words {
        [word] => number_between(1, MOST_STEP, word.bytes()),
        _ => None,
    }
}
