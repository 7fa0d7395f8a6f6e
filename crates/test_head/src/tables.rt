//! Dictionaries and alarms of small files.

use crate::files::Files;
use crate::shown::{alarms_answer, dictionary_answer};
use std::process::Abort;
use std::test::Fail;

/// Dictionaries, and tables with their first fault.
const DICTIONARIES: Files = &[
    (b"", b"names 0 synonyms 0"),
    (b"dictionary: t K\n", b"names 0 synonyms 0"),
    (b"dictionary::\n\n::\n", b"names 0 synonyms 0"),
    (
        b"dictionary::\nt K\nT K\nsynonym t T\n::\n",
        b"names 2 synonyms 1",
    ),
    (
        b"dictionary::\nt K\nsynonym t t\nsynonym t t t\n::\n",
        b"names 1 synonyms 2",
    ),
    (
        b"dictionary::\nt synonym\n= 1\nsynonymous 1\n::\n",
        b"names 3 synonyms 0",
    ),
    (b"dictionary::\nt\n::\n", b"BadValue 2"),
    (b"dictionary::\nt K m\n::\n", b"BadValue 2"),
    (b"dictionary::\nsynonym\n::\n", b"BadValue 2"),
    (b"dictionary::\nt K\nsynonym t\n::\n", b"BadValue 3"),
    (b"dictionary::\nt K\nsynonym K\n::\n", b"BadValue 3"),
    (b"dictionary::\nt K\nsynonym t synonym\n::\n", b"BadValue 3"),
    (b"dictionary::\nt K\nt m\n::\n", b"NameTwice 3"),
    (
        b"dictionary::\nt K\nu K\nt K\nsynonym t\n::\n",
        b"NameTwice 4",
    ),
    (
        b"dictionary::\nt K\nsynonym t u\nu K\n::\n",
        b"NameUnknown 3",
    ),
    (
        b"dictionary::\nt K\nu m\nsynonym t u\n::\n",
        b"UnitsDiffer 4",
    ),
    (
        b"dictionary::\nt K\nu m\nsynonym t u v\n::\n",
        b"NameUnknown 4",
    ),
    (b"dictionary::\nt K\nsynonym u synonym\n::\n", b"BadValue 3"),
    (
        b"dictionary::\nt K\nu m\nsynonym t u\nt K\n::\n",
        b"UnitsDiffer 4",
    ),
    (
        b"dictionary::\nt K\nx\nt K\n::\nalarms::\nx\n::\n",
        b"BadValue 3",
    ),
];

/// Alarms, and tables with their first fault.
const ALARMS: Files = &[
    (b"", b""),
    (b"alarms: a monthly\n", b""),
    (b"alarms::\n::\ndictionary::\nx\n::\n", b""),
    (
        b"alarms::\nnoon every 86400 from 43200\nmonth monthly\n::\n",
        b"noon every 86400 from 43200;month monthly;",
    ),
    (
        b"alarms::\na every 1 from 0\nb every 1000000000 from 1000000000\n::\n",
        b"a every 1 from 0;b every 1000000000 from 1000000000;",
    ),
    (
        b"alarms::\nmonthly every 010 from 00\nevery monthly\n::\n",
        b"monthly every 10 from 0;every monthly;",
    ),
    (
        b"alarms::\nabcdefghijklmnopqrstuvwxyz012345 monthly\n::\n",
        b"abcdefghijklmnopqrstuvwxyz012345 monthly;",
    ),
    (
        b"alarms::\nabcdefghijklmnopqrstuvwxyz0123456 monthly\n::\n",
        b"BadValue 2",
    ),
    (b"alarms::\na\n::\n", b"BadValue 2"),
    (b"alarms::\n1 monthly\n::\n", b"BadValue 2"),
    (b"alarms::\na-b monthly\n::\n", b"BadValue 2"),
    (b"alarms::\na Monthly\n::\n", b"BadValue 2"),
    (b"alarms::\na monthly x\n::\n", b"BadValue 2"),
    (b"alarms::\na every 0 from 0\n::\n", b"BadValue 2"),
    (b"alarms::\na every 1000000001 from 0\n::\n", b"BadValue 2"),
    (b"alarms::\na every 1 from 1000000001\n::\n", b"BadValue 2"),
    (b"alarms::\na every 1 from -1\n::\n", b"BadValue 2"),
    (b"alarms::\na every x from 0\n::\n", b"BadValue 2"),
    (b"alarms::\na every 1\n::\n", b"BadValue 2"),
    (b"alarms::\na every 1 from\n::\n", b"BadValue 2"),
    (b"alarms::\na every 1 to 0\n::\n", b"BadValue 2"),
    (b"alarms::\na each 1 from 0\n::\n", b"BadValue 2"),
    (b"alarms::\na every 1 from 0 x\n::\n", b"BadValue 2"),
    (
        b"alarms::\na monthly\nb monthly\na every 1 from 0\nx\n::\n",
        b"BadValue 4",
    ),
    (b"alarms::\na monthly\nx\na monthly\n::\n", b"BadValue 3"),
];

#[test]
fn tables(rt: HostRuntime) -> Result<(), Fail> {
    for (file, wanted) in DICTIONARIES {
        let found = dictionary_answer(rt.alloc(), *file)?;
        assert_eq!(rt; found.as_slice(), *wanted, "at {file:?}");
    }
    for (file, wanted) in ALARMS {
        let found = alarms_answer(rt.alloc(), *file)?;
        assert_eq!(rt; found.as_slice(), *wanted, "at {file:?}");
    }
    Ok(())
}
