//! The fields that a component advertises.

use crate::files::{END, MODEL, Rows, expect_rows};
use std::test::Fail;

/// Variables: `name = RULE`.
const VARIABLES: Rows = &[
    (&[], b"ok"),
    (&[(8, b"x = 0\n\ny = 0.5 # one more")], b"ok"),
    (&[(8, b"x")], b"BadValue 8"),
    (&[(8, b"x =")], b"BadValue 8"),
    (&[(8, b"= 0")], b"BadValue 8"),
    (&[(8, b"x == 0")], b"BadValue 8"),
    (&[(8, b"x=0")], b"BadValue 8"),
    (&[(8, b"x 0")], b"BadValue 8"),
    (&[(8, b"x 0 =")], b"BadValue 8"),
    (&[(8, b"x level m = 0")], b"BadValue 8"),
    (&[(8, b"x = = 0")], b"Syntax 8 0"),
    (&[(7, b"A_vars: x = 0\nA_other::")], b"NameUnknown 18"),
    (&[(7, b"a_vars::")], b"NameUnknown 17"),
    (
        &[
            (7, b"B_vars::"),
            (10, b"B_import::"),
            (13, b"B_export::"),
            (17, b""),
        ],
        b"ok",
    ),
];

/// Imports: `name standard units` and options.
const IMPORTS: Rows = &[
    (&[(11, b"in level m optional")], b"ok"),
    (&[(11, b"in level m init")], b"ok"),
    (&[(11, b"in level m check=current")], b"ok"),
    (&[(11, b"in level m check=next")], b"ok"),
    (&[(11, b"in level m check=none")], b"ok"),
    (&[(11, b"in level m check=none init optional")], b"ok"),
    (&[(11, b"in level m optional check=next init")], b"ok"),
    (&[(11, b"in")], b"BadValue 11"),
    (&[(11, b"in level")], b"BadValue 11"),
    (&[(11, b"in level m optional optional")], b"BadValue 11"),
    (&[(11, b"in level m init optional init")], b"BadValue 11"),
    (&[(11, b"in level m check=next check=next")], b"BadValue 11"),
    (&[(11, b"in level m check=next check=none")], b"BadValue 11"),
    (
        &[(11, b"in level m check=current optional check=none")],
        b"BadValue 11",
    ),
    (&[(11, b"in level m check=")], b"BadValue 11"),
    (&[(11, b"in level m check")], b"BadValue 11"),
    (&[(11, b"in level m check=Next")], b"BadValue 11"),
    (&[(11, b"in level m check=nextly")], b"BadValue 11"),
    (&[(11, b"in level m check = next")], b"BadValue 11"),
    (&[(11, b"in level m Optional")], b"BadValue 11"),
    (&[(11, b"in level m optional=1")], b"BadValue 11"),
    (&[(11, b"in level m init huh")], b"BadValue 11"),
    (&[(11, b"in level m = 0")], b"BadValue 11"),
    (&[(11, b"in depth m")], b"StandardUnknown 11"),
    (&[(11, b"in Level m")], b"StandardUnknown 11"),
    (&[(11, b"in m level")], b"StandardUnknown 11"),
    (&[(11, b"in level M")], b"UnitsDiffer 11"),
    (&[(11, b"in level W/m2")], b"UnitsDiffer 11"),
    (&[(11, b"in level optional")], b"UnitsDiffer 11"),
    (&[(11, b"in level m\nother level m")], b"ok"),
    (&[(2, b"other::")], b"StandardUnknown 11"),
];

/// Exports: `name standard units = RULE`.
const EXPORTS: Rows = &[
    (&[(14, b"out heat W/m2 = in\nmore heat W/m2 = 1")], b"ok"),
    (&[(14, b"out")], b"BadValue 14"),
    (&[(14, b"out heat W/m2")], b"BadValue 14"),
    (&[(14, b"out heat W/m2 =")], b"BadValue 14"),
    (&[(14, b"out heat W/m2 0")], b"BadValue 14"),
    (&[(14, b"out heat W/m2 == 0")], b"BadValue 14"),
    (&[(14, b"out = 0")], b"BadValue 14"),
    (&[(14, b"out heat = 0")], b"BadValue 14"),
    (&[(14, b"out heat W/m2 optional = 0")], b"BadValue 14"),
    (&[(14, b"out heat = = 0")], b"UnitsDiffer 14"),
    (&[(14, b"out depth W/m2 = 0")], b"StandardUnknown 14"),
    (&[(14, b"out heat m = 0")], b"UnitsDiffer 14"),
    (&[(14, b"out level W/m2 = 0")], b"UnitsDiffer 14"),
    (&[(14, b"out heat W/m2 = 1 +")], b"Syntax 14 3"),
];

/// Standard names: any word of at most 64 bytes but `synonym`.
const STANDARDS: Rows = &[
    (
        &[
            (
                3,
                b"s012345678901234567890123456789012345678901234567890123456789abc m",
            ),
            (
                11,
                b"in s012345678901234567890123456789012345678901234567890123456789abc m",
            ),
        ],
        b"ok",
    ),
    (
        &[(
            11,
            b"in s012345678901234567890123456789012345678901234567890123456789abc m",
        )],
        b"StandardUnknown 11",
    ),
    (
        &[(
            11,
            b"in s012345678901234567890123456789012345678901234567890123456789abcd m",
        )],
        b"BadValue 11",
    ),
    (
        &[(
            14,
            b"out s012345678901234567890123456789012345678901234567890123456789abc m = 0",
        )],
        b"StandardUnknown 14",
    ),
    (
        &[(
            14,
            b"out s012345678901234567890123456789012345678901234567890123456789abcd m = 0",
        )],
        b"BadValue 14",
    ),
    (&[(11, b"in synonym m")], b"BadValue 11"),
    (&[(14, b"out synonym W/m2 = 0")], b"BadValue 14"),
    (&[(11, b"in Synonym m")], b"StandardUnknown 11"),
    (&[(3, b"1/x-(y) m"), (11, b"in 1/x-(y) m")], b"ok"),
    (
        &[
            (3, b"level m\ndepth m\nsynonym level depth"),
            (11, b"in depth m"),
        ],
        b"ok",
    ),
    (&[(3, b"level =:="), (11, b"in level =:=")], b"ok"),
];

/// A name that stands twice.
const TWICE: Rows = &[
    (&[(8, b"x = 0\nx = 0")], b"FieldTwice 9"),
    (&[(8, b"x = 0\ny = 0\nx = 1")], b"FieldTwice 10"),
    (&[(11, b"in level m\nin heat W/m2")], b"FieldTwice 12"),
    (
        &[(14, b"out heat W/m2 = 0\nout level m = 0")],
        b"FieldTwice 15",
    ),
    (&[(11, b"x level m")], b"FieldTwice 11"),
    (&[(14, b"x heat W/m2 = 0")], b"FieldTwice 14"),
    (&[(14, b"in heat W/m2 = 0")], b"FieldTwice 14"),
    (&[(8, b"x = 0\nX = 0")], b"ok"),
    (&[(11, b"X level m")], b"ok"),
    (&[(14, b"In heat W/m2 = 0")], b"ok"),
    (
        &[
            (7, b"A_other::"),
            (17, b""),
            (END, b"A_vars::\nout = 0\n::"),
        ],
        b"FieldTwice 14",
    ),
];

#[test]
fn rows_of_fields(rt: HostRuntime) -> Result<(), Fail> {
    for rows in [VARIABLES, IMPORTS, EXPORTS, STANDARDS, TWICE] {
        expect_rows(&rt, rt.alloc(), MODEL, rows)?;
    }
    Ok(())
}
