//! Native rules: `call LABEL` and arguments.

use crate::files::{BOTH, MODEL, Rows, expect_rows};
use std::test::Fail;

/// Calls without faults in their arguments.
const LABELS: Rows = &[
    (&[(17, b"x = call relax x 10 0.5")], b"ok"),
    (&[(17, b"x = call flux in out[2,-2] -2")], b"ok"),
    (
        &[(17, b"x = call diffuse x x[1,0] x[-1,0] x[0,1] x[0,-1] 0.1")],
        b"ok",
    ),
    (&[(17, b"x = call relax i daysec dt")], b"ok"),
    (&[(17, b"x = call relax x 10")], b"InputsDiffer 17"),
    (&[(17, b"x = call relax x 10 0.5 1")], b"InputsDiffer 17"),
    (
        &[(17, b"x = call diffuse x x[1,0] x[-1,0] x[0,1] x[0,-1]")],
        b"InputsDiffer 17",
    ),
    (&[(17, b"x = call diffuse x 1 2")], b"InputsDiffer 17"),
    (&[(17, b"x = call relax{300  x}")], b"InputsDiffer 17"),
    (&[(17, b"x = call nope x")], b"EntryUnknown 17"),
    (&[(17, b"x = call nope x 10 0.5")], b"EntryUnknown 17"),
    (&[(17, b"x = call Relax x 10 0.5")], b"EntryUnknown 17"),
    (&[(17, b"x = call relaxx x 10 0.5")], b"EntryUnknown 17"),
    (&[(17, b"x = call rela x 10 0.5")], b"EntryUnknown 17"),
    (&[(17, b"x = call 1 2")], b"EntryUnknown 17"),
    (&[(17, b"x = call")], b"Syntax 17 4"),
    (&[(17, b"x = call relax")], b"Syntax 17 10"),
    (&[(17, b"x =   call    relax")], b"Syntax 17 10"),
    (&[(17, b"x = call nope")], b"Syntax 17 9"),
    (&[(17, b"x = call )")], b"Syntax 17 6"),
];

/// Faults of arguments, at their first bytes.
const ARGUMENTS: Rows = &[
    (&[(17, b"x = call relax x+1 10 0.5")], b"Syntax 17 11"),
    (&[(17, b"x = call relax x 10 (1)")], b"Syntax 17 16"),
    (&[(17, b"x = call relax -x 10 1")], b"Syntax 17 11"),
    (&[(17, b"x = call relax --1 10 1")], b"Syntax 17 11"),
    (&[(17, b"x = call relax {33 -}1 10 1")], b"Syntax 17 11"),
    (&[(17, b"x = call relax {33 (}1 10 1")], b"Syntax 17 11"),
    (&[(17, b"x = call relax x[12,0] 10 1")], b"Syntax 17 11"),
    (&[(17, b"x = call relax zz[12,0] 10 1")], b"Syntax 17 11"),
    (&[(17, b"x = call relax x [1,0] 10")], b"Syntax 17 13"),
    (&[(17, b"x = call relax, x 10 1.")], b"Syntax 17 17"),
    (&[(17, b"x = call relax(x, 10, 1)")], b"Syntax 17 14"),
    (&[(17, b"x = call relax = 10 1")], b"Syntax 17 11"),
    (&[(17, b"x  =  call  relax  10  )  1")], b"Syntax 17 14"),
    (
        &[(17, b"x = call relax x 10 1.0000001")],
        b"BadNumber 17 16",
    ),
    (
        &[(17, b"x = call relax x 1000000001 1")],
        b"BadNumber 17 13",
    ),
    (
        &[(17, b"x = call relax x -1000000000.000001 1")],
        b"BadNumber 17 13",
    ),
    (&[(17, b"x = call relax x -1000000000 1")], b"ok"),
    (&[(17, b"x = call relax nope 10 1")], b"NameUnknown 17"),
    (&[(17, b"x = call relax i[1,0] 10 1")], b"NameUnknown 17"),
    (&[(17, b"x = call relax nope[3,0] 10 1")], b"NameUnknown 17"),
    (&[(17, b"x = call relax min 10 1")], b"NameUnknown 17"),
    (&[(17, b"x = call relax call 10 1")], b"NameUnknown 17"),
    (&[(17, b"x = call relax relax 10 1")], b"NameUnknown 17"),
    (&[(17, b"x = call relax ring_noon 10 1")], b"NameUnknown 17"),
    (
        &[(17, b"x = call relax x[3,0] 10 1")],
        b"FarNeighbour 17 11",
    ),
    (
        &[(17, b"x = call relax x 10 in[0,-3]")],
        b"FarNeighbour 17 16",
    ),
];

/// Two faults of a call: arguments in their order, then the entry, then the number of inputs.
const ORDER: Rows = &[
    (&[(17, b"x = call relax nope 10 )")], b"NameUnknown 17"),
    (
        &[(17, b"x = call relax x[3,0] ) nope")],
        b"FarNeighbour 17 11",
    ),
    (&[(17, b"x = call relax 1 ) nope")], b"Syntax 17 13"),
    (
        &[(17, b"x = call relax 1.0000001 nope )")],
        b"BadNumber 17 11",
    ),
    (&[(17, b"x = call nope x )")], b"Syntax 17 12"),
    (&[(17, b"x = call nope zz")], b"NameUnknown 17"),
    (&[(17, b"x = call nope x[3,0]")], b"FarNeighbour 17 10"),
    (&[(17, b"x = call nope 1000000001")], b"BadNumber 17 10"),
    (&[(17, b"x = call relax x )")], b"Syntax 17 13"),
    (&[(17, b"x = call relax 1 2 3 4 )")], b"Syntax 17 19"),
    (&[(17, b"x = call nope x\nx")], b"EntryUnknown 17"),
    (
        &[(17, b"x = call relax x\nout = call nope x")],
        b"InputsDiffer 17",
    ),
    (&[(17, b"out = 0\nx = call relax x")], b"InputsDiffer 18"),
];

/// Calls in start rules, which read imports alone.
const STARTS: Rows = &[
    (&[(8, b"x = call relax in 10 0.5")], b"ok"),
    (&[(14, b"out heat W/m2 = call relax in in[1,1] 0.5")], b"ok"),
    (&[(8, b"x = call relax x 10 0.5")], b"NameUnknown 8"),
    (&[(8, b"x = call relax out 10 0.5")], b"NameUnknown 8"),
    (&[(8, b"x = call relax out[1,0] 10 0.5")], b"NameUnknown 8"),
    (&[(8, b"x = call relax in 10")], b"InputsDiffer 8"),
    (&[(8, b"x = call nope in 10")], b"EntryUnknown 8"),
    (&[(8, b"x = call")], b"Syntax 8 4"),
    (&[(14, b"out heat W/m2 = call relax")], b"Syntax 14 10"),
    (&[(8, b"x = call relax in[3,0] 1 1")], b"FarNeighbour 8 11"),
    (&[(8, b"x = call relax 1 0.0000001 1")], b"BadNumber 8 13"),
];

/// Calls in what a mediator keeps, and over an alarm.
const TOGETHER: Rows = &[
    (&[(13, b"x = call relax x 10 ring_noon")], b"ok"),
    (
        &[(13, b"x = call relax x 10 ring_night")],
        b"NameUnknown 13",
    ),
    (
        &[(13, b"x = call relax x 10 ring_noon[1,0]")],
        b"NameUnknown 13",
    ),
    (&[(29, b"add v = call flux a w 1")], b"ok"),
    (&[(29, b"add v = call flux a w")], b"InputsDiffer 29"),
    (&[(29, b"add v = call")], b"Syntax 29 4"),
];

#[test]
fn calls_of_native_entries(rt: HostRuntime) -> Result<(), Fail> {
    for rows in [LABELS, ARGUMENTS, ORDER, STARTS] {
        expect_rows(&rt, rt.alloc(), MODEL, rows)?;
    }
    expect_rows(&rt, rt.alloc(), BOTH, TOGETHER)
}
