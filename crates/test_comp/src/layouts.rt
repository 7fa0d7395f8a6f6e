//! The kind of a component, its PETs, its grid, the blocks of its grid and its substep.

use crate::files::{BOTH, END, MODEL, Rows, expect_rows};
use std::test::Fail;

/// Kinds.
const KINDS: Rows = &[
    (&[(END, b"A_kind: model")], b"ok"),
    (&[(END, b"A_kind:mediator")], b"ok"),
    (&[(END, b"A_kind:")], b"BadValue 19"),
    (&[(END, b"A_kind: Model")], b"BadValue 19"),
    (&[(END, b"A_kind: driver")], b"BadValue 19"),
    (&[(END, b"A_kind: model model")], b"BadValue 19"),
    (&[(END, b"A_kind::\nboat\n::")], b"ok"),
    (&[(END, b"B_kind: boat\na_kind: boat\nkind: boat")], b"ok"),
    (
        &[(END, b"A_model: mom6 and more\nA_attributes::\n::")],
        b"ok",
    ),
];

/// Lower and upper bounds of PETs.
const BOUNDS: Rows = &[
    (&[(END, b"A_petlist_bounds: 0 0")], b"ok"),
    (&[(END, b"A_petlist_bounds: 0 63")], b"ok"),
    (&[(END, b"A_petlist_bounds: 63 63")], b"ok"),
    (&[(END, b"A_petlist_bounds: 0 64")], b"PetOutOfRange 19"),
    (&[(END, b"A_petlist_bounds: 64 64")], b"PetOutOfRange 19"),
    (&[(END, b"A_petlist_bounds: 64 63")], b"PetOutOfRange 19"),
    (&[(END, b"A_petlist_bounds: 2 1")], b"PetOutOfRange 19"),
    (&[(END, b"A_petlist_bounds: 0 256")], b"PetOutOfRange 19"),
    (&[(END, b"A_petlist_bounds: 256 257")], b"PetOutOfRange 19"),
    (
        &[(END, b"A_petlist_bounds: 0 999999999999999999")],
        b"PetOutOfRange 19",
    ),
    (
        &[(END, b"A_petlist_bounds: 0 1000000000000000000")],
        b"BadValue 19",
    ),
    (
        &[(
            END,
            b"A_petlist_bounds: 000000000000000000 000000000000000001",
        )],
        b"ok",
    ),
    (
        &[(END, b"A_petlist_bounds: 0 0000000000000000001")],
        b"BadValue 19",
    ),
    (&[(END, b"A_petlist_bounds:")], b"BadValue 19"),
    (&[(END, b"A_petlist_bounds: 1")], b"BadValue 19"),
    (&[(END, b"A_petlist_bounds: 0 1 2")], b"BadValue 19"),
    (&[(END, b"A_petlist_bounds: -1 0")], b"BadValue 19"),
    (&[(END, b"A_petlist_bounds: 0 1.0")], b"BadValue 19"),
    (&[(END, b"A_petlist_bounds: 64 x")], b"BadValue 19"),
];

/// Columns and rows of a grid.
const GRIDS: Rows = &[
    (&[(6, b"")], b"NoGrid A"),
    (&[(6, b"B_grid: 4 2")], b"NoGrid A"),
    (&[(6, b"A_Grid: 4 2")], b"NoGrid A"),
    (&[(6, b"A_grid::\n4 2\n::")], b"NoGrid A"),
    (&[(6, b"A_grid: 1 1")], b"ok"),
    (&[(6, b"A_grid:4 2 periodic")], b"ok"),
    (&[(6, b"A_grid: 1024 1024")], b"ok"),
    (&[(6, b"A_grid: 1048576 1 periodic")], b"ok"),
    (&[(6, b"A_grid: 1 1048576")], b"ok"),
    (&[(6, b"A_grid: 000000000000000004 02")], b"ok"),
    (&[(6, b"A_grid: 1024 1025")], b"TooManyCells 6"),
    (&[(6, b"A_grid: 1048577 1")], b"TooManyCells 6"),
    (&[(6, b"A_grid: 1 1048577 periodic")], b"TooManyCells 6"),
    (&[(6, b"A_grid: 65536 65536")], b"TooManyCells 6"),
    (&[(6, b"A_grid: 4294967296 4294967296")], b"TooManyCells 6"),
    (&[(6, b"A_grid: 4294967297 1")], b"TooManyCells 6"),
    (
        &[(6, b"A_grid: 999999999999999999 999999999999999999")],
        b"TooManyCells 6",
    ),
    (&[(6, b"A_grid: 1 1000000000000000000")], b"BadValue 6"),
    (&[(6, b"A_grid: 0000000000000000001 1")], b"BadValue 6"),
    (&[(6, b"A_grid: 18446744073709551617 1")], b"BadValue 6"),
    (&[(6, b"A_grid: 0 1")], b"BadValue 6"),
    (&[(6, b"A_grid: 1 0")], b"BadValue 6"),
    (&[(6, b"A_grid: 000000000000000000 1")], b"BadValue 6"),
    (&[(6, b"A_grid: 0 999999999999999999")], b"BadValue 6"),
    (&[(6, b"A_grid:")], b"BadValue 6"),
    (&[(6, b"A_grid: 4")], b"BadValue 6"),
    (&[(6, b"A_grid: 4 2 2")], b"BadValue 6"),
    (&[(6, b"A_grid: 4 2 Periodic")], b"BadValue 6"),
    (&[(6, b"A_grid: 4 2 periodic periodic")], b"BadValue 6"),
    (&[(6, b"A_grid: periodic 4 2")], b"BadValue 6"),
    (&[(6, b"A_grid: 1024 1025 x")], b"BadValue 6"),
    (&[(6, b"A_grid: -4 2")], b"BadValue 6"),
    (&[(6, b"A_grid: 4 +2")], b"BadValue 6"),
    (&[(6, b"A_grid: 4.0 2")], b"BadValue 6"),
];

/// Blocks of a grid.
const BLOCKS: Rows = &[
    (&[(END, b"A_decomp: 1 1")], b"ok"),
    (&[(END, b"A_decomp: 01 000000000000000001")], b"ok"),
    (&[(END, b"A_decomp: 2 2")], b"BlocksMismatch A 4 1"),
    (
        &[(END, b"A_decomp: 1048576 1")],
        b"BlocksMismatch A 1048576 1",
    ),
    (
        &[(END, b"A_decomp: 1 1048576")],
        b"BlocksMismatch A 1048576 1",
    ),
    (
        &[(END, b"A_decomp: 1048576 1048576")],
        b"BlocksMismatch A 1099511627776 1",
    ),
    (
        &[(END, b"A_decomp: 65536 65536")],
        b"BlocksMismatch A 4294967296 1",
    ),
    (&[(END, b"A_decomp: 1048577 1")], b"BadValue 19"),
    (&[(END, b"A_decomp: 1 1048577")], b"BadValue 19"),
    (&[(END, b"A_decomp: 4294967297 1")], b"BadValue 19"),
    (&[(END, b"A_decomp: 0 1")], b"BadValue 19"),
    (&[(END, b"A_decomp: 1 0")], b"BadValue 19"),
    (&[(END, b"A_decomp: 0000000000000000001 1")], b"BadValue 19"),
    (&[(END, b"A_decomp:")], b"BadValue 19"),
    (&[(END, b"A_decomp: 1")], b"BadValue 19"),
    (&[(END, b"A_decomp: 1 1 1")], b"BadValue 19"),
    (&[(END, b"A_decomp: 1 1 periodic")], b"BadValue 19"),
    (&[(END, b"A_decomp: 1 -1")], b"BadValue 19"),
    (&[(END, b"A_petlist_bounds: 0 63\nA_decomp: 8 8")], b"ok"),
    (&[(END, b"A_petlist_bounds: 0 5\nA_decomp: 3 2")], b"ok"),
    (&[(END, b"A_petlist_bounds: 0 5\nA_decomp: 1 6")], b"ok"),
    (
        &[(END, b"A_petlist_bounds: 0 5\nA_decomp: 5 1")],
        b"BlocksMismatch A 5 6",
    ),
    (
        &[(END, b"A_petlist_bounds: 2 4\nA_decomp: 2 2")],
        b"BlocksMismatch A 4 3",
    ),
    (
        &[(END, b"A_petlist_bounds: 2 4\nA_decomp: 5 1")],
        b"BlocksMismatch A 5 3",
    ),
    (&[(END, b"A_petlist_bounds: 2 4\nA_decomp: 1 3")], b"ok"),
];

/// Substeps.
const SUBSTEPS: Rows = &[
    (&[(END, b"A_substep: 1")], b"ok"),
    (&[(END, b"A_substep: 1000000000")], b"ok"),
    (&[(END, b"A_substep: 000000001000000000")], b"ok"),
    (&[(END, b"A_substep: 1000000001")], b"BadValue 19"),
    (&[(END, b"A_substep: 999999999999999999")], b"BadValue 19"),
    (&[(END, b"A_substep: 0")], b"BadValue 19"),
    (&[(END, b"A_substep:")], b"BadValue 19"),
    (&[(END, b"A_substep: 1 1")], b"BadValue 19"),
    (&[(END, b"A_substep: 1.0")], b"BadValue 19"),
    (&[(END, b"A_substep: -1")], b"BadValue 19"),
    (&[(END, b"A_substep: 0000000000000000001")], b"BadValue 19"),
];

/// PETs of two components: one without bounds lives on all. And substeps of a mediator.
const TOGETHER: Rows = &[
    (&[(END, b"M_petlist_bounds: 0 3\nA_decomp: 2 2")], b"ok"),
    (
        &[(END, b"M_petlist_bounds: 0 3\nA_decomp: 1 1")],
        b"BlocksMismatch A 1 4",
    ),
    (&[(END, b"A_petlist_bounds: 4 5\nM_decomp: 6 1")], b"ok"),
    (
        &[(END, b"A_petlist_bounds: 4 5\nM_decomp: 2 1")],
        b"BlocksMismatch M 2 6",
    ),
    (
        &[(
            END,
            b"A_petlist_bounds: 0 1\nM_petlist_bounds: 1 6\nA_decomp: 7 1",
        )],
        b"BlocksMismatch A 7 2",
    ),
    (&[(END, b"M_substep: 7")], b"ok"),
    (&[(END, b"M_substep: 0")], b"BadValue 34"),
    (&[(END, b"M_substep: 1000000001")], b"BadValue 34"),
];

#[test]
fn kinds_and_pets(rt: HostRuntime) -> Result<(), Fail> {
    for rows in [KINDS, BOUNDS] {
        expect_rows(&rt, rt.alloc(), MODEL, rows)?;
    }
    Ok(())
}

#[test]
fn grids_blocks_and_substeps(rt: HostRuntime) -> Result<(), Fail> {
    for rows in [GRIDS, BLOCKS, SUBSTEPS] {
        expect_rows(&rt, rt.alloc(), MODEL, rows)?;
    }
    expect_rows(&rt, rt.alloc(), BOTH, TOGETHER)
}
