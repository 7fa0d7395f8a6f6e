//! Clocks and alarms.

use cpl_calendar::{Cal, end_of, moment};
use cpl_clock::{Alarm, Clock, ClockFault, clock_examples};
use std::test::Fail;

/// A clock goes from its start to its stop.
#[test]
fn steps(rt: HostRuntime) -> Result<(), Fail> {
    clock_examples();
    assert_eq!(rt; Clock::new(0, 10, 0).err(), Some(ClockFault::StepZero));
    assert_eq!(rt; Clock::new(5, 5, 0).err(), Some(ClockFault::StepZero));
    assert_eq!(rt; Clock::new(5, 5, 1).err(), Some(ClockFault::StopNotAfter));
    let mut clock = Clock::new(5, 65, 20)?;
    for at in [5, 25, 45] {
        assert!(rt; clock.is_at(at) && !clock.is_at(at + 1));
        assert_eq!(rt; clock.advance(), Ok(()));
    }
    assert_eq!(rt; clock.current(), 65);
    assert_eq!(rt; clock.advance(), Err(ClockFault::PastStop));
    assert_eq!(rt; clock.current(), 65);
    Ok(())
}

/// Seconds after the start of a run, and whether an alarm rings then.
#[test]
fn rings(rt: HostRuntime) -> Result<(), Fail> {
    let start = moment(Cal::Gregorian, b"2000-01-31T00:00:00")?;
    for (first, interval, seconds, wanted) in [
        (0, 21_600, 0, true),
        (0, 21_600, 43_200, true),
        (0, 21_600, 43_201, false),
        (7_200, 3_600, 3_600, false),
        (7_200, 3_600, 7_200, true),
        (7_200, 3_600, 10_800, true),
    ] {
        assert_eq!(rt; every(first, interval, start, seconds), Some(wanted));
    }
    for (seconds, wanted) in [
        (0, false),
        (86_400, true),
        (86_401, false),
        (2_592_000, true),
    ] {
        assert_eq!(rt; monthly(start, seconds), Some(wanted));
    }
    Ok(())
}

/// Whether an alarm rings that may be asked.
fn every(first: i64, interval: i64, start: i64, seconds: i64) -> Option<bool> {
    let at = start.checked_add(seconds)?;
    let lasts = start >= 0 && seconds >= 0 && at < end_of(Cal::Gregorian);
    if lasts && first >= 0 && interval >= 1 {
        let alarm = Alarm::Every { first, interval };
        return Some(alarm.rings_at(Cal::Gregorian, start, seconds));
    }
    None
}

/// Whether a month begins that the calendar has.
fn monthly(start: i64, seconds: i64) -> Option<bool> {
    let at = start.checked_add(seconds)?;
    if start >= 0 && seconds >= 0 && at < end_of(Cal::Gregorian) {
        return Some(Alarm::Monthly.rings_at(Cal::Gregorian, start, seconds));
    }
    None
}
