//! Files of many like words or rows: limits, and large files, each of which is answered in a short time.

use crate::shown::{alarms_answer, dictionary_answer, head_answer};
use cpl_base::write_number;
use std::alloc::Global;
use std::process::Abort;
use std::test::Fail;

/// A file of many like words or rows: what stands before them, one of them, how many there are, what stands behind
/// them, and the answer. A `%` stands for the number of each, from 0.
type Numbered = (
    &'static [u8],
    &'static [u8],
    u32,
    &'static [u8],
    &'static [u8],
);

/// Lists of components.
const LISTS: &[Numbered] = &[
    (
        b"EARTH_component_list:",
        b" C%",
        32,
        b"\nrunSeq::\n::\ncalendar: x\n",
        b"BadValue 4",
    ),
    (
        b"EARTH_component_list:",
        b" C%",
        33,
        b"\nrunSeq::\n::\ncalendar: x\n",
        b"TooManyComponents 33",
    ),
    (
        b"EARTH_component_list:",
        b" C%",
        33,
        b" C-\nrunSeq::\n::\n",
        b"BadValue 1",
    ),
    (
        b"EARTH_component_list:",
        b" C%",
        33,
        b" C0\nrunSeq::\n::\n",
        b"BadValue 1",
    ),
    (
        b"EARTH_component_list:",
        b" C%",
        400_000,
        b"\nrunSeq::\n::\n",
        b"TooManyComponents 400000",
    ),
    (
        b"EARTH_component_list:",
        b" C%",
        400_000,
        b" C0\nrunSeq::\n::\n",
        b"BadValue 1",
    ),
];

/// Dictionaries.
const DICTIONARIES: &[Numbered] = &[
    (
        b"dictionary::\n",
        b"abcdefghijklmnopqrstuvwxyz0123456789abcdefghijklmnopqrstuvwxyz0% 1\n",
        10,
        b"::\n",
        b"names 10 synonyms 0",
    ),
    (
        b"dictionary::\n",
        b"abcdefghijklmnopqrstuvwxyz0123456789abcdefghijklmnopqrstuvwxyz01% 1\n",
        10,
        b"::\n",
        b"BadValue 2",
    ),
    (
        b"dictionary::\nt K\nsynonym t t ",
        b"abcdefghijklmnopqrstuvwxyz0123456789abcdefghijklmnopqrstuvwxyz01% ",
        1,
        b"\n::\n",
        b"BadValue 3",
    ),
    (
        b"dictionary::\n",
        b"n% K\n",
        100_000,
        b"::\n",
        b"names 100000 synonyms 0",
    ),
    (
        b"dictionary::\n",
        b"n% K\n",
        100_000,
        b"n0 K\n::\n",
        b"NameTwice 100002",
    ),
    (
        b"dictionary::\nt K\nu K\n",
        b"synonym t u\n",
        100_000,
        b"synonym t v\n::\n",
        b"NameUnknown 100004",
    ),
    (
        b"dictionary::\nt K\nsynonym",
        b" t",
        400_000,
        b"\n::\n",
        b"names 1 synonyms 1",
    ),
];

/// Alarms.
const ALARMS: &[Numbered] = &[
    (
        b"alarms::\n",
        b"a% monthly\n",
        64,
        b"a monthly x\n::\n",
        b"BadValue 66",
    ),
    (
        b"alarms::\n",
        b"a% monthly\n",
        65,
        b"a monthly x\n::\n",
        b"BadValue 66",
    ),
    (
        b"alarms::\n",
        b"a% monthly\n",
        63,
        b"a monthly\na monthly\n::\n",
        b"BadValue 66",
    ),
    (
        b"alarms::\n",
        b"a% monthly\n",
        100_000,
        b"::\n",
        b"BadValue 66",
    ),
];

/// Appends a piece, in which each `%` stands for a number.
fn put_piece(out: &mut Vec<u8>, piece: &[u8], number: u32) -> Result<(), Fail> {
    for (place, part) in piece.split(|byte| *byte == b'%').enumerate() {
        if place > 0 {
            write_number(out, u128::from(number))?;
        }
        out.extend_from_slice(part)?;
    }
    Ok(())
}

/// The bytes of a file.
fn file_of(alloc: Global, numbered: &Numbered) -> Result<Vec<u8>, Fail> {
    let (before, piece, count, behind, _) = numbered;
    let mut out = Vec::from_slice(alloc, *before)?;
    for number in 0..*count {
        put_piece(&mut out, *piece, number)?;
    }
    out.extend_from_slice(*behind)?;
    Ok(out)
}

#[test]
fn lists(rt: HostRuntime) -> Result<(), Fail> {
    for list in LISTS {
        let file = file_of(rt.alloc(), list)?;
        let found = head_answer(rt.alloc(), file.as_slice())?;
        assert_eq!(rt; found.as_slice(), list.4, "at {list:?}");
    }
    Ok(())
}

#[test]
fn dictionaries(rt: HostRuntime) -> Result<(), Fail> {
    for dictionary in DICTIONARIES {
        let file = file_of(rt.alloc(), dictionary)?;
        let found = dictionary_answer(rt.alloc(), file.as_slice())?;
        assert_eq!(rt; found.as_slice(), dictionary.4, "at {dictionary:?}");
    }
    Ok(())
}

#[test]
fn alarms(rt: HostRuntime) -> Result<(), Fail> {
    let alloc = rt.alloc();
    let full = file_of(alloc, &(b"alarms::\n", b"a% monthly\n", 64, b"::\n", b""))?;
    let wanted = file_of(alloc, &(b"", b"a% monthly;", 64, b"", b""))?;
    let found = alarms_answer(alloc, full.as_slice())?;
    assert_eq!(rt; found.as_slice(), wanted.as_slice());
    for alarms in ALARMS {
        let file = file_of(alloc, alarms)?;
        let found = alarms_answer(alloc, file.as_slice())?;
        assert_eq!(rt; found.as_slice(), alarms.4, "at {alarms:?}");
    }
    Ok(())
}
