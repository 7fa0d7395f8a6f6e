//! Files at the ends of what is allowed, and one step past them.

use crate::files::{BOTH, END, MODEL, Rows, expect_rows};
use std::test::Fail;

/// 64 fields of all kinds.
const FIELDS: Rows = &[
    (&[(8, b"x = 0\n{61 f% = 0\n}")], b"ok"),
    (&[(8, b"x = 0\n{62 f% = 0\n}")], b"TooManyFields A 65"),
    (&[(8, b"x = 0\n{400 f% = 0\n}")], b"TooManyFields A 403"),
    (&[(11, b"in level m\n{61 f% level m\n}")], b"ok"),
    (
        &[(11, b"in level m\n{62 f% level m\n}")],
        b"TooManyFields A 65",
    ),
    (
        &[(14, b"out heat W/m2 = 0\n{61 f% heat W/m2 = 0\n}")],
        b"ok",
    ),
    (
        &[(14, b"out heat W/m2 = 0\n{62 f% heat W/m2 = 0\n}")],
        b"TooManyFields A 65",
    ),
    (&[(8, b"x = 0\n{62 f% = 0\n}f")], b"BadValue 71"),
    (&[(8, b"x = 0\n{62 f% = 0\n}out = 0")], b"FieldTwice 77"),
    (
        &[(8, b"x = 0\n{62 f% = 0\n}"), (END, b"A_phases:")],
        b"TooManyFields A 65",
    ),
    (
        &[(6, b""), (8, b"x = 0\n{62 f% = 0\n}")],
        b"TooManyFields A 65",
    ),
    (&[(8, b"x = )\n{62 f% = 0\n}")], b"TooManyFields A 65"),
    (
        &[
            (8, b"x = 0\n{62 f% = 0\n}"),
            (END, b"A_petlist_bounds: 2 1"),
        ],
        b"PetOutOfRange 82",
    ),
];

/// 16 phases.
const PHASES: Rows = &[
    (
        &[(END, b"A_phases:{16  p%}\n{16 A_phase_p%::\nx = %\n::\n}")],
        b"ok",
    ),
    (&[(END, b"A_phases:{16  p%}")], b"MissingLabel A_phase_p0"),
    (&[(END, b"A_phases:{17  p%}")], b"TooManyPhases A 17"),
    (&[(END, b"A_phases:{300  p%}")], b"TooManyPhases A 300"),
    (&[(END, b"A_phases:{17  p%} p0")], b"PhaseTwice 19"),
    (&[(END, b"A_phases:{17  p%} 1")], b"BadValue 19"),
    (
        &[(6, b""), (END, b"A_phases:{17  p%}")],
        b"TooManyPhases A 17",
    ),
];

/// Eight range checks in a phase.
const CHECKS: Rows = &[
    (&[(17, b"{8 check x % 9\n}x = 1")], b"ok"),
    (&[(17, b"{9 check x % 9\n}")], b"BadValue 25"),
    (&[(17, b"{8 check x 0 1\n}check nope 0 1")], b"BadValue 25"),
    (
        &[(17, b"{7 check x 0 1\n}check nope 0 1")],
        b"NameUnknown 24",
    ),
];

/// Rows of a mediator's phases, and alarms.
const OTHERS: Rows = &[
    (
        &[(29, b"{8 check v 0 1\n}"), (32, b"{8 check v 0 1\n}")],
        b"ok",
    ),
    (
        &[(29, b"{8 check v 0 1\n}"), (32, b"{9 check v 0 1\n}")],
        b"BadValue 48",
    ),
    (&[(29, b"merge v ={32  a w}")], b"ok"),
    (&[(29, b"merge v ={33  a w}")], b"BadValue 29"),
    (&[(29, b"merge v ={31  a w} a")], b"BadValue 29"),
    (&[(29, b"merge v ={32  nope nope}")], b"NameUnknown 29"),
    (&[(29, b"merge v ={33  nope nope}")], b"BadValue 29"),
    (
        &[(6, b"{64 bell% monthly\n}"), (18, b"v = ring_bell63")],
        b"ok",
    ),
    (
        &[(6, b"{64 bell% monthly\n}"), (18, b"v = ring_bell64")],
        b"NameUnknown 82",
    ),
];

/// 64 averages and adds of 64 variables.
const AVERAGES: Rows = &[
    (
        &[
            (18, b"{64 f% = 0\n}"),
            (19, b""),
            (22, b""),
            (25, b""),
            (29, b"{64 average f%\n}{64 add f% = %\n}"),
            (32, b""),
        ],
        b"ok",
    ),
    (
        &[
            (18, b"{64 f% = 0\n}"),
            (19, b""),
            (22, b""),
            (25, b""),
            (29, b"{64 average f%\n}average f0"),
            (32, b""),
        ],
        b"BadValue 157",
    ),
    (
        &[
            (18, b"{64 f% = 0\n}"),
            (19, b""),
            (22, b""),
            (25, b""),
            (29, b"{64 average f%\n}average nope"),
            (32, b""),
        ],
        b"BadValue 157",
    ),
];

#[test]
fn limits_of_a_model(rt: HostRuntime) -> Result<(), Fail> {
    for rows in [FIELDS, PHASES, CHECKS] {
        expect_rows(&rt, rt.alloc(), MODEL, rows)?;
    }
    Ok(())
}

#[test]
fn limits_of_a_mediator(rt: HostRuntime) -> Result<(), Fail> {
    for rows in [OTHERS, AVERAGES] {
        expect_rows(&rt, rt.alloc(), BOTH, rows)?;
    }
    Ok(())
}
