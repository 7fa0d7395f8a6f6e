//! Large files, of up to 4 MiB: each is answered in a short time.

use crate::files::{edited, put_numbered};
use crate::shown::answer;
use std::alloc::Global;
use std::process::Abort;
use std::test::Fail;

/// A file of many like rows or words: what stands before them, one of them, how many there are, what stands behind
/// them, and the answer. A `%` stands for the number of each, in four letters and digits.
type Large = (
    &'static [u8],
    &'static [u8],
    u32,
    &'static [u8],
    &'static [u8],
);

/// The digits of the numbers.
const DIGITS: &[u8; 36] = b"0123456789abcdefghijklmnopqrstuvwxyz";

/// A model of many fields.
const FIELDS: &[Large] = &[(
    b"EARTH_component_list: A\nA_grid: 1 1\nA_phase_run::\n::\nA_vars::\n",
    b"v% = 0\n",
    400_000,
    b"::\n",
    b"TooManyFields A 400000",
)];

/// A model of many fields, of which the last has the name of the first.
const FIELD_TWICE: &[Large] = &[(
    b"EARTH_component_list: A\nA_grid: 1 1\nA_phase_run::\n::\nA_vars::\n",
    b"v% = 0\n",
    400_000,
    b"v0000 = 1\n::\n",
    b"FieldTwice 400006",
)];

/// Models of many phases.
const PHASES: &[Large] = &[
    (
        b"EARTH_component_list: A\nA_grid: 1 1\nA_phase_run::\n::\nA_phases:",
        b" p%",
        400_000,
        b"\n",
        b"TooManyPhases A 400000",
    ),
    (
        b"EARTH_component_list: A\nA_grid: 1 1\nA_phase_run::\n::\nA_phases:",
        b" p%",
        400_000,
        b" p0000\n",
        b"PhaseTwice 5",
    ),
];

/// Components of many rows or words.
const ROWS: &[Large] = &[
    (
        b"EARTH_component_list: A\nA_grid: 1 1\nA_vars::\nx = 0\n::\nA_phase_run::\n",
        b"x = 0\n",
        200_000,
        b"::\n",
        b"BadValue 8",
    ),
    (
        b"EARTH_component_list: A\nA_grid: 1 1\nA_vars::\nx = 0\n::\nA_phase_run::\nx = 0",
        b" + x",
        500_000,
        b"\n::\n",
        b"DeepFormula 7",
    ),
    (
        b"EARTH_component_list: A\nA_grid: 1 1\nA_vars::\nx = 0\n::\nA_phase_run::\nx = call relax",
        b" x[1,0]",
        500_000,
        b"\n::\n",
        b"InputsDiffer 7",
    ),
    (
        b"EARTH_component_list: A\nA_grid: 1 1\nA_phase_run::\n::\nA_import::\nx level m",
        b" optional",
        400_000,
        b"\n::\n",
        b"BadValue 6",
    ),
    (
        b"EARTH_component_list: A\nA_kind: mediator\nA_grid: 1 1\nA_vars::\nx = 0\n::\nA_phase_run::\nmerge x =",
        b" x x",
        500_000,
        b"\n::\n",
        b"BadValue 8",
    ),
];

/// A component of 64 fields and 16 phases, in which `@` stands for its number.
const COMPONENT: &[&[u8]] = &[
    b"C@_grid: 4 2",
    b"C@_vars::",
    b"{64 f% = %\n}::",
    b"C@_phases:{16  p%}",
    b"{16 C@_phase_p%::\nf0 = f63[1,0] + %\nf63 = call relax f0 f1 0.5\ncheck f0 0 %\n::\n}",
];

/// Appends a number of four digits.
fn put_digits(out: &mut Vec<u8>, number: u32) -> Result<(), Fail> {
    for unit in [46_656, 1_296, 36, 1] {
        out.push(DIGITS[(number / unit % 36) as usize])?;
    }
    Ok(())
}

/// Appends a piece, in which each `%` stands for the digits of a number.
fn put_piece(out: &mut Vec<u8>, piece: &[u8], number: u32) -> Result<(), Fail> {
    for (place, part) in piece.split(|byte| *byte == b'%').enumerate() {
        if place > 0 {
            put_digits(out, number)?;
        }
        out.extend_from_slice(part)?;
    }
    Ok(())
}

/// A large file.
fn large_file(alloc: Global, large: &Large) -> Result<Vec<u8>, Fail> {
    let (before, piece, count, behind, _) = large;
    let mut out = Vec::from_slice(alloc, *before)?;
    for number in 0..*count {
        put_piece(&mut out, *piece, number)?;
    }
    out.extend_from_slice(*behind)?;
    Ok(out)
}

/// Asserts the answers to large files.
fn expect_large(rt: &impl Abort, alloc: Global, files: &[Large]) -> Result<(), Fail> {
    for large in files {
        let file = large_file(alloc, large)?;
        let found = answer(alloc, file.as_slice())?;
        assert_eq!(rt; found.as_slice(), large.4, "at {large:?}");
    }
    Ok(())
}

/// A file of 32 components, with a line behind them.
fn full_file(alloc: Global, line: &[u8]) -> Result<Vec<u8>, Fail> {
    let component = edited(alloc, COMPONENT, &[])?;
    let mut out = edited(alloc, &[b"EARTH_component_list:{32  C%}"], &[])?;
    for number in 0..32 {
        put_numbered(&mut out, component.as_slice(), b'@', number)?;
    }
    out.extend_from_slice(line)?;
    Ok(out)
}

#[test]
fn many_fields(rt: HostRuntime) -> Result<(), Fail> {
    expect_large(&rt, rt.alloc(), FIELDS)
}

#[test]
fn a_field_twice_among_many(rt: HostRuntime) -> Result<(), Fail> {
    expect_large(&rt, rt.alloc(), FIELD_TWICE)
}

#[test]
fn many_phases(rt: HostRuntime) -> Result<(), Fail> {
    expect_large(&rt, rt.alloc(), PHASES)
}

#[test]
fn many_rows_and_words(rt: HostRuntime) -> Result<(), Fail> {
    expect_large(&rt, rt.alloc(), ROWS)
}

#[test]
fn many_components(rt: HostRuntime) -> Result<(), Fail> {
    let alloc = rt.alloc();
    let cases: [(&[u8], &[u8]); 4] = [
        (b"", b"ok"),
        (b"C31_petlist_bounds: 0 63\nC30_decomp: 8 8\n", b"ok"),
        (b"C31_decomp: 2 2\n", b"BlocksMismatch C31 4 1"),
        (b"C30_decomp: 2 2\nC31_kind: boat\n", b"BadValue 4804"),
    ];
    for (line, wanted) in cases {
        let file = full_file(alloc, line)?;
        let found = answer(alloc, file.as_slice())?;
        assert_eq!(rt; found.as_slice(), wanted, "at {line:?}");
    }
    Ok(())
}
