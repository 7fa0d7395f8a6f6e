//! The names of phases, and their tables.

use crate::files::{BOTH, END, MODEL, Rows, expect_rows};
use std::test::Fail;

/// Names of phases.
const NAMES: Rows = &[
    (&[(END, b"A_phases: run")], b"ok"),
    (&[(END, b"A_phases:run")], b"ok"),
    (&[(END, b"A_phases:")], b"BadValue 19"),
    (&[(END, b"A_phases: run 1st")], b"BadValue 19"),
    (&[(END, b"A_phases: a-b")], b"BadValue 19"),
    (&[(END, b"A_phases: run run a-b")], b"BadValue 19"),
    (&[(END, b"A_phases: run run")], b"PhaseTwice 19"),
    (&[(END, b"A_phases: walk run walk")], b"PhaseTwice 19"),
    (&[(END, b"A_phases: run Run")], b"MissingLabel A_phase_Run"),
    (
        &[(END, b"A_phases: run sel ring_x")],
        b"MissingLabel A_phase_sel",
    ),
    (&[(END, b"A_phases: walk")], b"MissingLabel A_phase_walk"),
    (
        &[(END, b"A_phases: n012345678901234567890123456789a")],
        b"MissingLabel A_phase_n012345678901234567890123456789a",
    ),
    (
        &[(END, b"A_phases: n012345678901234567890123456789ab")],
        b"BadValue 19",
    ),
    (
        &[(END, b"A_phases: call\nA_phase_call::\nx = 1\n::")],
        b"ok",
    ),
    (&[(END, b"A_phases::\nwalk\n::")], b"ok"),
];

/// Tables of phases.
const TABLES: Rows = &[
    (&[(17, b"")], b"ok"),
    (&[(16, b"A_phase_walk::")], b"MissingLabel A_phase_run"),
    (
        &[(16, b"A_phase_walk::"), (END, b"A_phase_run: x = 1")],
        b"MissingLabel A_phase_run",
    ),
    (&[(16, b"B_phase_run::")], b"MissingLabel A_phase_run"),
    (
        &[(END, b"A_phases: walk\nA_phase_walk::\nx\n::")],
        b"BadValue 21",
    ),
    (
        &[
            (17, b"x"),
            (END, b"A_phases: walk\nA_phase_walk::\nx = 1\n::"),
        ],
        b"ok",
    ),
];

/// A table that two components read, each by its own label and its own rules.
const SHARED: Rows = &[
    (
        &[
            (1, b"EARTH_component_list: A A_phase"),
            (
                END,
                b"A_phases: run vars\nA_phase_grid: 1 1\nA_phase_phase_run::\n::\nA_phase_vars::\nx = 1\n::",
            ),
        ],
        b"ok",
    ),
    (
        &[
            (1, b"EARTH_component_list: A A_phase"),
            (
                END,
                b"A_phases: run vars\nA_phase_grid: 1 1\nA_phase_phase_run::\n::\nA_phase_vars::\ny = 1\n::",
            ),
        ],
        b"NameUnknown 24",
    ),
    (
        &[
            (1, b"EARTH_component_list: A A_phase"),
            (
                END,
                b"A_phases: run vars\nA_phase_grid: 1 1\nA_phase_phase_run::\n::\nA_phase_vars::\ncheck x 0 1\n::",
            ),
        ],
        b"BadValue 24",
    ),
];

/// Phases in the order of their names: each with its table, then its rows.
const IN_ORDER: Rows = &[
    (&[(28, b"M_other::")], b"MissingLabel M_phase_first"),
    (&[(31, b"M_other::")], b"MissingLabel M_phase_second"),
    (
        &[(28, b"M_other::"), (32, b"w")],
        b"MissingLabel M_phase_first",
    ),
    (
        &[(28, b"M_other::"), (31, b"M_another::")],
        b"MissingLabel M_phase_first",
    ),
    (&[(29, b"v"), (31, b"M_other::")], b"BadValue 29"),
    (&[(29, b"v = )"), (31, b"M_other::")], b"Syntax 29 0"),
    (&[(29, b"v = nope"), (32, b"w")], b"NameUnknown 29"),
    (
        &[(27, b"M_phases: second first"), (29, b"v"), (32, b"w = )")],
        b"Syntax 32 0",
    ),
    (&[(27, b"M_phases: second")], b"ok"),
    (&[(27, b"M_phases: second"), (29, b"v")], b"ok"),
    (&[(27, b"")], b"MissingLabel M_phase_run"),
    (&[(32, b"v = a\nw = a")], b"ok"),
];

#[test]
fn names_and_tables_of_phases(rt: HostRuntime) -> Result<(), Fail> {
    for rows in [NAMES, TABLES, SHARED] {
        expect_rows(&rt, rt.alloc(), MODEL, rows)?;
    }
    expect_rows(&rt, rt.alloc(), BOTH, IN_ORDER)
}
