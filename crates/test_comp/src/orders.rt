//! Two faults in one file: which of them is the answer.

use crate::files::{BOTH, END, MODEL, Rows, expect_rows};
use std::test::Fail;

/// What a component advertises: kind, bounds, variables, imports, exports, phases.
const ADVERTISED: Rows = &[
    (
        &[(END, b"A_petlist_bounds: 2 1\nA_kind: boat")],
        b"BadValue 20",
    ),
    (
        &[(8, b"x"), (END, b"A_petlist_bounds: 2 1")],
        b"PetOutOfRange 19",
    ),
    (&[(8, b"x"), (END, b"A_petlist_bounds: 2")], b"BadValue 19"),
    (&[(8, b"x"), (END, b"A_kind: boat")], b"BadValue 19"),
    (&[(8, b"x = 0\nx"), (11, b"in level K")], b"BadValue 9"),
    (&[(8, b"x = 0\nx = 1"), (11, b"in")], b"FieldTwice 9"),
    (
        &[
            (7, b"A_other::"),
            (11, b"in level K"),
            (END, b"A_vars::\nx\n::"),
        ],
        b"BadValue 20",
    ),
    (&[(11, b"in level K"), (14, b"out")], b"UnitsDiffer 11"),
    (
        &[
            (10, b"A_other::"),
            (14, b"out heat m = 0"),
            (END, b"A_import::\nin\n::"),
        ],
        b"BadValue 20",
    ),
    (
        &[(14, b"out depth m = 0"), (END, b"A_phases:")],
        b"StandardUnknown 14",
    ),
    (&[(6, b""), (END, b"A_phases: run run")], b"PhaseTwice 19"),
    (
        &[(6, b"A_grid: 0 1"), (14, b"out heat m = 0")],
        b"UnitsDiffer 14",
    ),
    (&[(6, b"A_grid: 0 1"), (END, b"A_phases:")], b"BadValue 19"),
    (&[(8, b"x = )"), (11, b"in depth m")], b"StandardUnknown 11"),
    (
        &[(16, b"A_other::"), (END, b"A_petlist_bounds: 0 64")],
        b"PetOutOfRange 19",
    ),
];

/// A row of a field: its form, its name, its standard name, its units. And an earlier row before a later one.
const FIELD_ROWS: Rows = &[
    (&[(8, b"x = 0\nx =")], b"BadValue 9"),
    (&[(11, b"x depth K huh")], b"BadValue 11"),
    (&[(11, b"x synonym K")], b"BadValue 11"),
    (&[(11, b"x depth K")], b"FieldTwice 11"),
    (&[(11, b"x level K")], b"FieldTwice 11"),
    (&[(11, b"in depth K")], b"StandardUnknown 11"),
    (&[(14, b"in depth K =")], b"BadValue 14"),
    (&[(14, b"in depth K = 0")], b"FieldTwice 14"),
    (&[(14, b"x heat m = 0")], b"FieldTwice 14"),
    (&[(14, b"out depth K = )")], b"StandardUnknown 14"),
    (&[(14, b"out heat K = )")], b"UnitsDiffer 14"),
    (&[(11, b"in level K\nmore")], b"UnitsDiffer 11"),
    (&[(11, b"in depth m\nin level m")], b"StandardUnknown 11"),
    (&[(8, b"x = 0\nx = 0\ny")], b"FieldTwice 9"),
    (&[(8, b"x = )\ny")], b"BadValue 9"),
];

/// What a component realises: grid, blocks, substep, start rules, phases.
const REALISED: Rows = &[
    (&[(6, b""), (END, b"A_decomp: 0 1")], b"NoGrid A"),
    (&[(6, b""), (8, b"x = )")], b"NoGrid A"),
    (&[(6, b"A_grid: 0 1"), (END, b"A_decomp: x")], b"BadValue 6"),
    (
        &[(6, b"A_grid: 1024 1025"), (END, b"A_decomp: 0 1")],
        b"TooManyCells 6",
    ),
    (
        &[(6, b"A_grid: 1024 1025"), (END, b"A_decomp: 2 2")],
        b"TooManyCells 6",
    ),
    (&[(END, b"A_substep: 0\nA_decomp: 0 2")], b"BadValue 20"),
    (
        &[(END, b"A_substep: 0\nA_decomp: 2 2")],
        b"BlocksMismatch A 4 1",
    ),
    (
        &[(8, b"x = )"), (END, b"A_decomp: 2 2")],
        b"BlocksMismatch A 4 1",
    ),
    (&[(8, b"x = )"), (END, b"A_substep: 0")], b"BadValue 19"),
    (&[(8, b"x = 1 +\ny = )")], b"Syntax 8 3"),
    (
        &[(8, b"x = 1 +"), (14, b"out heat W/m2 = )")],
        b"Syntax 8 3",
    ),
    (
        &[
            (7, b"A_other::"),
            (14, b"out heat W/m2 = )"),
            (END, b"A_vars::\nx = (\n::"),
        ],
        b"Syntax 20 1",
    ),
    (&[(14, b"out heat W/m2 = )"), (17, b"x")], b"Syntax 14 0"),
    (
        &[(14, b"out heat W/m2 = )"), (16, b"A_other::")],
        b"Syntax 14 0",
    ),
    (&[(8, b"x = nope"), (16, b"A_other::")], b"NameUnknown 8"),
    (
        &[(8, b"x = call relax 1"), (14, b"out heat W/m2 = )")],
        b"InputsDiffer 8",
    ),
];

/// Two components: all advertise before the first is realised.
const TOGETHER: Rows = &[
    (&[(8, b""), (15, b"M_kind: boat")], b"BadValue 15"),
    (
        &[(8, b""), (27, b"M_phases: first first")],
        b"PhaseTwice 27",
    ),
    (&[(13, b"x = )"), (22, b"a level K")], b"UnitsDiffer 22"),
    (
        &[(10, b"x level K = 0"), (15, b"M_kind: boat")],
        b"UnitsDiffer 10",
    ),
    (
        &[
            (1, b"EARTH_component_list: M A"),
            (10, b"x level K = 0"),
            (15, b"M_kind: boat"),
        ],
        b"BadValue 15",
    ),
    (&[(8, b""), (16, b"")], b"NoGrid A"),
    (
        &[(1, b"EARTH_component_list: M A"), (8, b""), (16, b"")],
        b"NoGrid M",
    ),
    (&[(13, b"x = )"), (16, b"")], b"Syntax 13 0"),
    (&[(8, b""), (32, b"w = )")], b"NoGrid A"),
    (
        &[
            (1, b"EARTH_component_list: A"),
            (15, b"M_kind: boat"),
            (16, b""),
        ],
        b"ok",
    ),
    (&[(19, b"w = 0\nx = 0")], b"ok"),
    (&[(29, b"x = a")], b"NameUnknown 29"),
];

#[test]
fn two_faults(rt: HostRuntime) -> Result<(), Fail> {
    for rows in [ADVERTISED, FIELD_ROWS, REALISED] {
        expect_rows(&rt, rt.alloc(), MODEL, rows)?;
    }
    expect_rows(&rt, rt.alloc(), BOTH, TOGETHER)
}
