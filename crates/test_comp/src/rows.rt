//! The rows of a phase, of a model and of a mediator.

use crate::files::{BOTH, MODEL, Rows, expect_rows};
use std::test::Fail;

/// Rows of a form, or of none.
const FORMS: Rows = &[
    (&[(17, b"x")], b"BadValue 17"),
    (&[(17, b"x =")], b"BadValue 17"),
    (&[(17, b"x 1")], b"BadValue 17"),
    (&[(17, b"x == 1")], b"BadValue 17"),
    (&[(17, b"x=1")], b"BadValue 17"),
    (&[(17, b"= 1")], b"BadValue 17"),
    (&[(17, b"=")], b"BadValue 17"),
    (&[(17, b"= =")], b"BadValue 17"),
    (&[(17, b"= = 1")], b"NameUnknown 17"),
    (&[(17, b"9 = 3")], b"NameUnknown 17"),
    (&[(17, b"a-b = 1")], b"NameUnknown 17"),
    (&[(17, b"i = 1")], b"NameUnknown 17"),
    (&[(17, b"call = 1")], b"NameUnknown 17"),
    (&[(17, b"nope = 1")], b"NameUnknown 17"),
    (&[(17, b"X = 1")], b"NameUnknown 17"),
    (&[(17, b"nope = )")], b"NameUnknown 17"),
    (&[(17, b"nope = call")], b"NameUnknown 17"),
    (&[(17, b"add = 1")], b"NameUnknown 17"),
    (&[(17, b"check = 2")], b"NameUnknown 17"),
    (&[(17, b"average = 1")], b"NameUnknown 17"),
    (&[(17, b"merge = in out")], b"NameUnknown 17"),
    (&[(17, b"add =")], b"BadValue 17"),
    (
        &[
            (8, b"x = 0\nadd = 0\ncheck = 0\naverage = 0\nmerge = 0"),
            (17, b"add = 1\ncheck = 2\naverage = 3\nmerge = 4"),
        ],
        b"ok",
    ),
    (
        &[(8, b"x = 0\ncheck = 0"), (17, b"check = 0 1")],
        b"Syntax 18 2",
    ),
    (
        &[(8, b"x = 0\nadd = 0"), (17, b"add add = 1")],
        b"BadValue 18",
    ),
];

/// Assignments: of variables and exports, each once.
const ASSIGNMENTS: Rows = &[
    (&[(17, b"out = x")], b"ok"),
    (&[(17, b"x = 1\nout = 2")], b"ok"),
    (&[(17, b"in = 1")], b"BadValue 17"),
    (&[(17, b"in = )")], b"BadValue 17"),
    (&[(17, b"in = nope")], b"BadValue 17"),
    (&[(17, b"x = 1\nx = 2")], b"BadValue 18"),
    (&[(17, b"x = 1\nout = 2\nx = )")], b"BadValue 19"),
    (&[(17, b"nope = 1\nnope = 2")], b"NameUnknown 17"),
    (&[(17, b"x = 1\nX = 2")], b"NameUnknown 18"),
    (&[(17, b"x = nope\nx")], b"NameUnknown 17"),
    (&[(17, b"x = (\nnope")], b"Syntax 17 1"),
];

/// Range checks.
const CHECKS: Rows = &[
    (&[(17, b"check x 0 1")], b"ok"),
    (&[(17, b"check in -1 1.5")], b"ok"),
    (&[(17, b"check out 0 0")], b"ok"),
    (&[(17, b"check x 0 -0")], b"ok"),
    (&[(17, b"check x -1000000000 1000000000.000000")], b"ok"),
    (&[(17, b"check x 0.000001 00.000001")], b"ok"),
    (&[(17, b"check x 0 1\ncheck x 0 1\nx = 2")], b"ok"),
    (&[(17, b"check x 1 0")], b"BadValue 17"),
    (&[(17, b"check x 0 -0.000001")], b"BadValue 17"),
    (&[(17, b"check")], b"BadValue 17"),
    (&[(17, b"check x")], b"BadValue 17"),
    (&[(17, b"check x 0")], b"BadValue 17"),
    (&[(17, b"check x 0 1 2")], b"BadValue 17"),
    (&[(17, b"check x low high")], b"BadValue 17"),
    (&[(17, b"check x = 1")], b"BadValue 17"),
    (&[(17, b"check x 0 1.0000001")], b"BadValue 17"),
    (&[(17, b"check x 0.0000000 1")], b"BadValue 17"),
    (&[(17, b"check x 0 1000000000.000001")], b"BadValue 17"),
    (&[(17, b"check x -1000000000.000001 0")], b"BadValue 17"),
    (&[(17, b"check x +0 1")], b"BadValue 17"),
    (&[(17, b"check x .5 1")], b"BadValue 17"),
    (&[(17, b"check x 0 1.")], b"BadValue 17"),
    (&[(17, b"check x --1 1")], b"BadValue 17"),
    (&[(17, b"Check x 0 1")], b"BadValue 17"),
    (&[(17, b"check nope 0 1")], b"NameUnknown 17"),
    (&[(17, b"check a-b 0 1")], b"NameUnknown 17"),
    (&[(17, b"check ring_x 0 1")], b"NameUnknown 17"),
    (&[(17, b"check X 0 1")], b"NameUnknown 17"),
    (&[(17, b"check nope 1 0")], b"BadValue 17"),
];

/// Rows that only a mediator may have, in a model.
const FOREIGN: Rows = &[
    (&[(17, b"add x = 1")], b"BadValue 17"),
    (&[(17, b"average x")], b"BadValue 17"),
    (&[(17, b"merge x = in in")], b"BadValue 17"),
    (&[(17, b"add nope = 1")], b"BadValue 17"),
    (&[(17, b"average nope")], b"BadValue 17"),
    (&[(17, b"merge nope = in in")], b"BadValue 17"),
];

/// Adds of a mediator: of variables and exports, each once.
const ADDS: Rows = &[
    (&[(29, b"add v = a")], b"ok"),
    (&[(29, b"add e = a * 2")], b"ok"),
    (&[(29, b"add v = a\nadd w = a")], b"ok"),
    (&[(29, b"add v = a\nv = a")], b"ok"),
    (&[(29, b"v = a\nadd v = v")], b"ok"),
    (&[(29, b"add v = a\naverage v")], b"ok"),
    (&[(29, b"merge v = a w\nadd v = a")], b"ok"),
    (&[(29, b"add v = a\nadd v = w")], b"BadValue 30"),
    (&[(29, b"add v = a\nv = a\nadd v = )")], b"BadValue 31"),
    (&[(29, b"add a = v")], b"BadValue 29"),
    (&[(29, b"add")], b"BadValue 29"),
    (&[(29, b"add v")], b"BadValue 29"),
    (&[(29, b"add v =")], b"BadValue 29"),
    (&[(29, b"add x =")], b"BadValue 29"),
    (&[(29, b"add v a")], b"BadValue 29"),
    (&[(29, b"add v == a")], b"BadValue 29"),
    (&[(29, b"Add v = a")], b"BadValue 29"),
    (&[(29, b"add nope = a")], b"NameUnknown 29"),
    (&[(29, b"add nope = )")], b"NameUnknown 29"),
    (&[(29, b"add v = nope")], b"NameUnknown 29"),
    (&[(29, b"add v = )")], b"Syntax 29 0"),
    (&[(29, b"add = 1")], b"NameUnknown 29"),
    (&[(29, b"check = 2")], b"NameUnknown 29"),
    (
        &[(19, b"w = 0\nadd = 0"), (29, b"add = 1\nadd add = 2")],
        b"ok",
    ),
];

/// Averages of a mediator.
const AVERAGES: Rows = &[
    (&[(29, b"average v")], b"ok"),
    (&[(29, b"average e\naverage w")], b"ok"),
    (&[(29, b"average v"), (32, b"average v")], b"ok"),
    (&[(29, b"average a")], b"BadValue 29"),
    (&[(29, b"average")], b"BadValue 29"),
    (&[(29, b"average v w")], b"BadValue 29"),
    (&[(29, b"average v = 1")], b"BadValue 29"),
    (&[(29, b"Average v")], b"BadValue 29"),
    (&[(29, b"average = 1")], b"NameUnknown 29"),
    (&[(29, b"average nope")], b"NameUnknown 29"),
    (&[(29, b"average v\naverage v")], b"BadValue 30"),
    (&[(29, b"v = a\naverage v")], b"BadValue 30"),
    (&[(29, b"average v\nv = a")], b"BadValue 30"),
    (&[(29, b"merge v = a w\naverage v")], b"BadValue 30"),
    (&[(29, b"average v\nmerge v = a w")], b"BadValue 30"),
];

/// Merges of a mediator: of one to 32 pairs of fields.
const MERGES: Rows = &[
    (&[(29, b"merge v = a w")], b"ok"),
    (&[(29, b"merge e = a a v v")], b"ok"),
    (&[(29, b"merge v = a w\nw = a")], b"ok"),
    (&[(29, b"merge a = v w")], b"BadValue 29"),
    (&[(29, b"merge")], b"BadValue 29"),
    (&[(29, b"merge v")], b"BadValue 29"),
    (&[(29, b"merge v =")], b"BadValue 29"),
    (&[(29, b"merge v = a")], b"BadValue 29"),
    (&[(29, b"merge v = a w a")], b"BadValue 29"),
    (&[(29, b"merge v a w")], b"BadValue 29"),
    (&[(29, b"merge v == a w")], b"BadValue 29"),
    (&[(29, b"Merge v = a w")], b"BadValue 29"),
    (&[(29, b"merge v = a w\nmerge v = a w")], b"BadValue 30"),
    (&[(29, b"merge v = a w\nv = a")], b"BadValue 30"),
    (&[(29, b"v = a\nmerge v = a w")], b"BadValue 30"),
    (&[(29, b"merge a = nope nope")], b"BadValue 29"),
    (&[(29, b"merge nope = a")], b"BadValue 29"),
    (&[(29, b"merge v = nope")], b"BadValue 29"),
    (&[(29, b"merge nope = a w")], b"NameUnknown 29"),
    (&[(29, b"merge v = nope a")], b"NameUnknown 29"),
    (&[(29, b"merge v = a nope")], b"NameUnknown 29"),
    (&[(29, b"merge v = a w 1 2")], b"NameUnknown 29"),
    (&[(29, b"merge v = a[1,0] w")], b"NameUnknown 29"),
    (&[(29, b"merge v = ring_noon w")], b"NameUnknown 29"),
    (&[(29, b"merge v = a dt")], b"NameUnknown 29"),
    (&[(29, b"merge v = = =")], b"NameUnknown 29"),
    (&[(29, b"merge = a w")], b"NameUnknown 29"),
];

#[test]
fn rows_of_a_model(rt: HostRuntime) -> Result<(), Fail> {
    for rows in [FORMS, ASSIGNMENTS, CHECKS, FOREIGN] {
        expect_rows(&rt, rt.alloc(), MODEL, rows)?;
    }
    Ok(())
}

#[test]
fn rows_of_a_mediator(rt: HostRuntime) -> Result<(), Fail> {
    for rows in [ADDS, AVERAGES, MERGES] {
        expect_rows(&rt, rt.alloc(), BOTH, rows)?;
    }
    Ok(())
}
