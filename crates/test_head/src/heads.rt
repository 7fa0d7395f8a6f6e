//! Heads of small files: what is read of them, each fault, and which of two faults is found.

use crate::files::Files;
use crate::shown::head_answer;
use std::alloc::Global;
use std::process::Abort;
use std::test::Fail;

/// Heads that are accepted.
const ACCEPTED: Files = &[
    (
        b"EARTH_component_list: A\nrunSeq::\n::\n",
        b"A Gregorian 63082281600",
    ),
    (
        b"runSeq::\n@1\n::\nEARTH_component_list:MED ATM_2\n",
        b"MED ATM_2 Gregorian 63082281600",
    ),
    (
        b"EARTH_component_list: A a\nrunSeq::\n::\ncalendar: gregorian\n",
        b"A a Gregorian 63082281600",
    ),
    (
        b"calendar: noleap\nEARTH_component_list: A\nrunSeq::\n::\n",
        b"A NoLeap 63040464000",
    ),
    (
        b"EARTH_component_list: A\ncalendar: 360day\nrunSeq::\n::\n",
        b"A Day360 62176896000",
    ),
    (
        b"EARTH_component_list: A\nrunSeq::\n::\nstartTime: 2024-02-28T12:00:00\nstopTime: 2024-03-01T00:00:00\n",
        b"A Gregorian 63844718400 span 129600",
    ),
    (
        b"stopTime: 2024-03-01T00:00:00\nstartTime: 2024-02-28T12:00:00\ncalendar: noleap\nEARTH_component_list: A\nrunSeq::\n::\n",
        b"A NoLeap 63802382400 span 43200",
    ),
    (
        b"EARTH_component_list: A\nrunSeq::\n::\nstartTime: 2024-02-28T12:00:00\nstopTime: 2024-02-30T00:00:00\ncalendar: 360day\n",
        b"A Day360 62928360000 span 129600",
    ),
    (
        b"EARTH_component_list: A\nrunSeq::\n::\nstopTime: 2000-01-01T00:00:01\n",
        b"A Gregorian 63082281600 span 1",
    ),
    (
        b"EARTH_component_list: A\nrunSeq::\n::\nstartTime: 0001-01-01T00:00:00\nstopTime: 9999-12-31T23:59:59\n",
        b"A Gregorian 0 span 315537897599",
    ),
    (
        b"EARTH_component_list: A\nrunSeq::\n::\ntimeStep: 1\n",
        b"A Gregorian 63082281600 step 1",
    ),
    (
        b"EARTH_component_list: A\nrunSeq::\n::\ntimeStep: 001000000000\n",
        b"A Gregorian 63082281600 step 1000000000",
    ),
    (
        b"EARTH_component_list: A\nrunSeq::\n::\ntimeStep: 60 # a minute\nstopTime: 2000-01-01T01:00:00\n",
        b"A Gregorian 63082281600 span 3600 step 60",
    ),
    (
        b"EARTH_component_list: A\nrunSeq::\n::\ncalendar::\nx\n::\ntimeStep::\n::\n",
        b"A Gregorian 63082281600",
    ),
    (
        b"EARTH_component_list: abcdefghijklmnopqrstuvwxyz012345\nrunSeq::\n::\n",
        b"abcdefghijklmnopqrstuvwxyz012345 Gregorian 63082281600",
    ),
];

/// Heads with one fault.
const FAULTY: Files = &[
    (b"", b"MissingLabel EARTH_component_list"),
    (
        b"runSeq::\n::\nEARTH_component_list::\nA\n::\n",
        b"MissingLabel EARTH_component_list",
    ),
    (
        b"EARTH_component_list: A\nrunSeq: A\n",
        b"MissingLabel runSeq",
    ),
    (b"EARTH_component_list:\nrunSeq::\n::\n", b"BadValue 1"),
    (
        b"\nEARTH_component_list: A 2\nrunSeq::\n::\n",
        b"BadValue 2",
    ),
    (b"EARTH_component_list: A _b\nrunSeq::\n::\n", b"BadValue 1"),
    (
        b"EARTH_component_list: A B C B\nrunSeq::\n::\n",
        b"BadValue 1",
    ),
    (
        b"EARTH_component_list: abcdefghijklmnopqrstuvwxyz0123456\nrunSeq::\n::\n",
        b"BadValue 1",
    ),
    (
        b"EARTH_component_list: A\nrunSeq::\n::\ncalendar: julian\n",
        b"BadValue 4",
    ),
    (
        b"EARTH_component_list: A\nrunSeq::\n::\ncalendar: Gregorian\n",
        b"BadValue 4",
    ),
    (
        b"EARTH_component_list: A\nrunSeq::\n::\ncalendar:\n",
        b"BadValue 4",
    ),
    (
        b"EARTH_component_list: A\nrunSeq::\n::\ncalendar: 360day x\n",
        b"BadValue 4",
    ),
    (
        b"EARTH_component_list: A\nrunSeq::\n::\nstartTime:\n",
        b"BadValue 4",
    ),
    (
        b"EARTH_component_list: A\nrunSeq::\n::\nstartTime: 2000-01-01 00:00:00\n",
        b"BadValue 4",
    ),
    (
        b"EARTH_component_list: A\nrunSeq::\n::\nstartTime: 2000-01-01\n",
        b"BadTime 4",
    ),
    (
        b"EARTH_component_list: A\nrunSeq::\n::\nstartTime: 0000-01-01T00:00:00\n",
        b"YearRange 4",
    ),
    (
        b"EARTH_component_list: A\nrunSeq::\n::\nstartTime: 1900-02-29T00:00:00\n",
        b"NoSuchDay 4",
    ),
    (
        b"EARTH_component_list: A\nrunSeq::\n::\nstartTime: 2000-02-29T00:00:00\ncalendar: noleap\n",
        b"NoSuchDay 4",
    ),
    (
        b"EARTH_component_list: A\nrunSeq::\n::\nstartTime: 2000-01-31T00:00:00\ncalendar: 360day\n",
        b"NoSuchDay 4",
    ),
    (
        b"EARTH_component_list: A\nrunSeq::\n::\nstopTime:\n",
        b"BadValue 4",
    ),
    (
        b"EARTH_component_list: A\nrunSeq::\n::\nstopTime: 2001-01-01T00:00:00 x\n",
        b"BadValue 4",
    ),
    (
        b"EARTH_component_list: A\nrunSeq::\n::\nstopTime: 2001-01-01T24:00:00\n",
        b"BadTime 4",
    ),
    (
        b"EARTH_component_list: A\nrunSeq::\n::\nstopTime: 0000-12-31T00:00:00\n",
        b"YearRange 4",
    ),
    (
        b"EARTH_component_list: A\nrunSeq::\n::\nstopTime: 2001-02-29T00:00:00\n",
        b"NoSuchDay 4",
    ),
    (
        b"EARTH_component_list: A\nrunSeq::\n::\nstopTime: 2000-01-01T00:00:00\n",
        b"StopNotAfter 4",
    ),
    (
        b"EARTH_component_list: A\nrunSeq::\n::\nstopTime: 1999-12-31T23:59:59\n",
        b"StopNotAfter 4",
    ),
    (
        b"EARTH_component_list: A\nrunSeq::\n::\nstopTime: 2024-02-28T12:00:00\nstartTime: 2024-02-28T12:00:00\n",
        b"StopNotAfter 4",
    ),
    (
        b"EARTH_component_list: A\nrunSeq::\n::\ntimeStep:\n",
        b"BadValue 4",
    ),
    (
        b"EARTH_component_list: A\nrunSeq::\n::\ntimeStep: 0\n",
        b"BadValue 4",
    ),
    (
        b"EARTH_component_list: A\nrunSeq::\n::\ntimeStep: 1000000001\n",
        b"BadValue 4",
    ),
    (
        b"EARTH_component_list: A\nrunSeq::\n::\ntimeStep: 1 2\n",
        b"BadValue 4",
    ),
    (
        b"EARTH_component_list: A\nrunSeq::\n::\ntimeStep: +1\n",
        b"BadValue 4",
    ),
    (
        b"EARTH_component_list: A\nrunSeq::\n::\ntimeStep: 0000000000000000001\n",
        b"BadValue 4",
    ),
];

/// Heads with two faults, of which the first in the order of judging is found.
const FIRST_OF_TWO: Files = &[
    (b"calendar: x\n", b"MissingLabel EARTH_component_list"),
    (
        b"EARTH_component_list: 1\ncalendar: x\n",
        b"MissingLabel runSeq",
    ),
    (
        b"calendar: x\nEARTH_component_list: 1\nrunSeq::\n::\n",
        b"BadValue 2",
    ),
    (
        b"startTime: x\ncalendar: x\nEARTH_component_list: A A\nrunSeq::\n::\n",
        b"BadValue 3",
    ),
    (
        b"startTime: x\ncalendar: x\nEARTH_component_list: A\nrunSeq::\n::\n",
        b"BadValue 2",
    ),
    (
        b"stopTime: x\nstartTime: x y\nEARTH_component_list: A\nrunSeq::\n::\n",
        b"BadValue 2",
    ),
    (
        b"stopTime: x y\nstartTime: x\nEARTH_component_list: A\nrunSeq::\n::\n",
        b"BadTime 2",
    ),
    (
        b"stopTime: x\nstartTime: 0000-01-01T00:00:00\nEARTH_component_list: A\nrunSeq::\n::\n",
        b"YearRange 2",
    ),
    (
        b"stopTime: x\nstartTime: 2001-02-29T00:00:00\nEARTH_component_list: A\nrunSeq::\n::\n",
        b"NoSuchDay 2",
    ),
    (
        b"startTime: 0000-13-01T00:00:00\nEARTH_component_list: A\nrunSeq::\n::\n",
        b"BadTime 1",
    ),
    (
        b"startTime: 0000-02-30T00:00:00\nEARTH_component_list: A\nrunSeq::\n::\n",
        b"YearRange 1",
    ),
    (
        b"timeStep: 0\nstopTime: x y\nEARTH_component_list: A\nrunSeq::\n::\n",
        b"BadValue 2",
    ),
    (
        b"timeStep: 0\nstopTime: x\nEARTH_component_list: A\nrunSeq::\n::\n",
        b"BadTime 2",
    ),
    (
        b"timeStep: 0\nstopTime: 1999-02-29T00:00:00\nEARTH_component_list: A\nrunSeq::\n::\n",
        b"NoSuchDay 2",
    ),
    (
        b"timeStep: 0\nstopTime: 1999-01-01T00:00:00\nEARTH_component_list: A\nrunSeq::\n::\n",
        b"StopNotAfter 2",
    ),
    (
        b"alarms::\nx\n::\ndictionary::\nx\n::\ntimeStep: 0\nEARTH_component_list: A\nrunSeq::\n::\n",
        b"BadValue 7",
    ),
];

/// Asserts the answers to files.
fn expect(rt: &impl Abort, alloc: Global, files: Files) -> Result<(), Fail> {
    for (file, wanted) in files {
        let found = head_answer(alloc, *file)?;
        assert_eq!(rt; found.as_slice(), *wanted, "at {file:?}");
    }
    Ok(())
}

#[test]
fn heads(rt: HostRuntime) -> Result<(), Fail> {
    expect(&rt, rt.alloc(), ACCEPTED)?;
    expect(&rt, rt.alloc(), FAULTY)?;
    expect(&rt, rt.alloc(), FIRST_OF_TWO)
}
