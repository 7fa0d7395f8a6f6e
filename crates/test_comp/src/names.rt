//! Which names a field may have, in each of the tables.

use crate::files::{MODEL, edited};
use crate::shown::answer;
use std::alloc::Global;
use std::process::Abort;
use std::test::Fail;

/// Names that a field may have.
const ACCEPTED: &[&[u8]] = &[
    b"y",
    b"I",
    b"X",
    b"Sel",
    b"CALL",
    b"callx",
    b"i2",
    b"nz",
    b"dtt",
    b"year2",
    b"ring",
    b"ringx",
    b"Ring_x",
    b"a_b",
    b"a_",
    b"a__b",
    b"Z9",
    b"standard",
    b"synonym",
    b"add",
    b"check",
    b"merge",
    b"average",
    b"optional",
    b"init",
    b"model",
    b"run",
    b"A",
    b"level",
    b"n012345678901234567890123456789a",
];

/// Words that no field may have as a name.
const REFUSED: &[&[u8]] = &[
    b"i",
    b"j",
    b"s",
    b"nx",
    b"ny",
    b"year",
    b"month",
    b"day",
    b"hour",
    b"minute",
    b"second",
    b"days",
    b"daysec",
    b"dt",
    b"min",
    b"max",
    b"abs",
    b"sel",
    b"call",
    b"ring_x",
    b"ring_",
    b"ring_ring_",
    b"1x",
    b"9",
    b"_x",
    b"x-y",
    b"x.y",
    b"x+",
    b"-x",
    b"(x)",
    b"x[1,0]",
    b"x,",
    b"x:",
    b"::",
    b"n012345678901234567890123456789ab",
];

/// The answer to the model where the line of this number is followed by a row of a name.
fn answer_with(alloc: Global, number: usize, row: &[&[u8]; 3]) -> Result<Vec<u8>, Fail> {
    let mut text = Vec::new(alloc);
    for part in row {
        text.extend_from_slice(*part)?;
    }
    let file = edited(alloc, MODEL, &[(number, text.as_slice())])?;
    answer(alloc, file.as_slice())
}

/// Asserts the answers to a variable, an import and an export of this name.
fn expect_name(
    rt: &impl Abort,
    alloc: Global,
    name: &[u8],
    wanted: &[&[u8]; 3],
) -> Result<(), Fail> {
    let [variable, import, export] = wanted;
    let found = answer_with(alloc, 8, &[b"x = 0\n", name, b" = 0"])?;
    assert_eq!(rt; found.as_slice(), *variable, "at {name:?}");
    let found = answer_with(alloc, 11, &[b"in level m\n", name, b" level m"])?;
    assert_eq!(rt; found.as_slice(), *import, "at {name:?}");
    let found = answer_with(alloc, 14, &[b"out heat W/m2 = 0\n", name, b" level m = 0"])?;
    assert_eq!(rt; found.as_slice(), *export, "at {name:?}");
    Ok(())
}

#[test]
fn names_of_fields(rt: HostRuntime) -> Result<(), Fail> {
    for name in ACCEPTED {
        expect_name(&rt, rt.alloc(), *name, &[b"ok", b"ok", b"ok"])?;
    }
    for name in REFUSED {
        let wanted = [b"BadValue 9".as_slice(), b"BadValue 12", b"BadValue 15"];
        expect_name(&rt, rt.alloc(), *name, &wanted)?;
    }
    Ok(())
}
