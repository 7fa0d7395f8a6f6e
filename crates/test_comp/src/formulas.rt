//! Formulas as start rules and in phases: what they may read, and where their faults stand.

use crate::files::{BOTH, COUNTING, END, MODEL, Rows, expect_rows};
use std::test::Fail;

/// Start rules, which read imports alone.
const STARTS: Rows = &[
    (&[(8, b"x = in")], b"ok"),
    (&[(8, b"x = in[1,0] - in[-2,2]")], b"ok"),
    (&[(14, b"out heat W/m2 = in + 1")], b"ok"),
    (
        &[(
            8,
            b"x = i+j+s+nx+ny+year+month+day+hour+minute+second+days+daysec+dt",
        )],
        b"ok",
    ),
    (&[(8, b"x = 0\ny = x")], b"NameUnknown 9"),
    (&[(8, b"x = x")], b"NameUnknown 8"),
    (&[(8, b"x = out")], b"NameUnknown 8"),
    (&[(8, b"x = out[1,0]")], b"NameUnknown 8"),
    (&[(14, b"out heat W/m2 = x")], b"NameUnknown 14"),
    (&[(14, b"out heat W/m2 = out")], b"NameUnknown 14"),
    (&[(8, b"x = In")], b"NameUnknown 8"),
    (&[(8, b"x = dt[1,0]")], b"NameUnknown 8"),
    (&[(8, b"x = level")], b"NameUnknown 8"),
    (&[(8, b"x = ring_noon")], b"NameUnknown 8"),
    (&[(8, b"x = in[3,0]")], b"FarNeighbour 8 3"),
    (&[(8, b"x = 1  +   in )")], b"Syntax 8 7"),
    (&[(8, b"x = {33 (}")], b"DeepFormula 8"),
];

/// Start rules and phases over an alarm.
const ALARMS: Rows = &[
    (&[(18, b"v = ring_noon")], b"ok"),
    (&[(13, b"x = ring_noon * x")], b"ok"),
    (&[(18, b"v = ring_night")], b"NameUnknown 18"),
    (&[(13, b"x = ring_night")], b"NameUnknown 13"),
    (&[(18, b"v = ring_Noon")], b"NameUnknown 18"),
    (&[(18, b"v = ring_")], b"NameUnknown 18"),
    (&[(18, b"v = noon")], b"NameUnknown 18"),
    (&[(18, b"v = ring_noon[1,0]")], b"NameUnknown 18"),
    (
        &[(6, b"noon monthly\nnight monthly"), (18, b"v = ring_night")],
        b"ok",
    ),
];

/// Formulas in phases, with the line of the row and the place in the rule's words joined by one blank.
const PHASES: Rows = &[
    (&[(17, b"x = in[2,-2] + out[-2,0] * (x - 0.5)")], b"ok"),
    (&[(17, b"x = x +")], b"Syntax 17 3"),
    (&[(17, b"  x   =   x    +  +  1")], b"Syntax 17 4"),
    (&[(17, b"x = x\ty")], b"Syntax 17 2"),
    (&[(17, b"x = (x")], b"Syntax 17 2"),
    (&[(17, b"x = x $")], b"Syntax 17 2"),
    (&[(17, b"x = = 1")], b"Syntax 17 0"),
    (&[(17, b"x = min(x)")], b"Syntax 17 5"),
    (&[(17, b"x = sel(x, 1, 2, 3)")], b"Syntax 17 11"),
    (&[(17, b"x = abs x")], b"Syntax 17 4"),
    (&[(17, b"x = abs")], b"Syntax 17 3"),
    (&[(17, b"x = min[1,0]")], b"Syntax 17 3"),
    (&[(17, b"x = in[12,0]")], b"Syntax 17 3"),
    (&[(17, b"x = x # + 1")], b"ok"),
    (&[(17, b"x = 1\nout = out *")], b"Syntax 18 5"),
    (&[(17, b"x = 1.0000001")], b"BadNumber 17 0"),
    (&[(17, b"x = x + 0.1234567")], b"BadNumber 17 4"),
    (&[(17, b"x = x - 1000000001")], b"BadNumber 17 4"),
    (&[(17, b"x = 1000000000.0")], b"ok"),
    (&[(17, b"x = x + y")], b"NameUnknown 17"),
    (&[(17, b"x = i[1,0]")], b"NameUnknown 17"),
    (&[(17, b"x = 1 + call")], b"NameUnknown 17"),
    (&[(17, b"x = call(1)")], b"NameUnknown 17"),
    (&[(17, b"x = Call relax x 10 0.5")], b"NameUnknown 17"),
    (&[(17, b"x = y + )")], b"NameUnknown 17"),
    (&[(17, b"x = ) + y")], b"Syntax 17 0"),
    (&[(17, b"x = in[3,0]")], b"FarNeighbour 17 3"),
    (&[(17, b"x = 1 + in[0,-3]")], b"FarNeighbour 17 9"),
    (&[(17, b"x = in[3,0] + y")], b"FarNeighbour 17 3"),
    (&[(17, b"x = {31 (}x{31 )}")], b"ok"),
    (&[(17, b"x = {32 (}x{32 )}")], b"DeepFormula 17"),
    (&[(17, b"x = {32 (}")], b"Syntax 17 32"),
    (&[(17, b"x = {33 (}")], b"DeepFormula 17"),
    (&[(17, b"x = ) {33 (}")], b"DeepFormula 17"),
    (&[(17, b"x = {31 -}x")], b"ok"),
    (&[(17, b"x = {32 -}x")], b"DeepFormula 17"),
    (&[(17, b"x = {33 -}")], b"DeepFormula 17"),
    (&[(17, b"x = x{31  + 1}")], b"ok"),
    (&[(17, b"x = x{32  + 1}")], b"DeepFormula 17"),
];

/// The worked examples of numbers, calls, neighbours and ranges, and the same with a fault.
const WORKED: Rows = &[
    (&[], b"ok"),
    (&[(4, b"x = 100000"), (7, b"x = x * x")], b"ok"),
    (&[(4, b"x = 1000000000.000001")], b"BadNumber 4 0"),
    (&[(4, b"x = -0.000001"), (7, b"x = x / 2 + x")], b"ok"),
    (&[(7, b"x = call relax x 10 0.5")], b"ok"),
    (&[(7, b"x = call relax x 10")], b"InputsDiffer 7"),
    (
        &[(2, b"A_grid: 2 1"), (END, b"A_petlist_bounds: 0 2")],
        b"ok",
    ),
    (
        &[
            (2, b"A_grid: 3 1 periodic"),
            (4, b"x = s"),
            (7, b"x = x[1,0] + x[-2,0]"),
            (END, b"A_petlist_bounds: 0 2"),
        ],
        b"ok",
    ),
    (
        &[
            (2, b"A_grid: 4 1"),
            (4, b"x = sel(2 - s, 9, sel(s - 3, 10, sel(s - 2, 0, 10)))"),
            (7, b"x = x + 1\ncheck x 0 10"),
            (END, b"A_petlist_bounds: 0 1"),
        ],
        b"ok",
    ),
    (&[(END, b"A_substep: 3")], b"ok"),
    (
        &[
            (1, b"EARTH_component_list: B"),
            (2, b"B_kind: mediator\nB_grid: 1 1"),
            (3, b"B_vars::"),
            (6, b"B_phases: run mean\nB_phase_run::"),
            (7, b"add x = i"),
            (END, b"B_phase_mean::\naverage x\n::"),
        ],
        b"ok",
    ),
];

#[test]
fn formulas_at_the_start(rt: HostRuntime) -> Result<(), Fail> {
    expect_rows(&rt, rt.alloc(), MODEL, STARTS)?;
    expect_rows(&rt, rt.alloc(), BOTH, ALARMS)
}

#[test]
fn formulas_in_phases(rt: HostRuntime) -> Result<(), Fail> {
    expect_rows(&rt, rt.alloc(), MODEL, PHASES)?;
    expect_rows(&rt, rt.alloc(), COUNTING, WORKED)
}
