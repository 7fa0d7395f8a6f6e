//! Values of formulas, worked by hand.

use crate::reading::{GREATEST, read, worth};
use std::alloc::Global;
use std::test::Fail;

/// Texts, the values of what they read, in millionths and in the order in which it first stands, and what
/// they are worth.
type Rows = &'static [(&'static [u8], &'static [i64], i64)];

/// The four operators, and how they group.
const OPERATORS: Rows = &[
    (b"9", &[], 9_000_000),
    (b"0", &[], 0),
    (b"12.5", &[], 12_500_000),
    (b"0.1 + 0.2", &[], 300_000),
    (b"x + y", &[1_500_000, 2_250_000], 3_750_000),
    (b"x - y", &[1_000_000, 3_000_000], -2_000_000),
    (b"x * y", &[1_500_000, -2_000_000], -3_000_000),
    (b"x / y", &[7_000_000, 2_000_000], 3_500_000),
    (b"y / x", &[7_000_000, 2_000_000], 3_500_000),
    (b"x / y - x", &[7_000_000, 2_000_000], -3_500_000),
    (b"10 - 4 - 3", &[], 3_000_000),
    (b"10 - (4 - 3)", &[], 9_000_000),
    (b"24 / 4 / 2", &[], 3_000_000),
    (b"24 / (4 / 2)", &[], 12_000_000),
    (b"2 + 3 * 4", &[], 14_000_000),
    (b"(2 + 3) * 4", &[], 20_000_000),
    (b"2 * 3 / 4", &[], 1_500_000),
    (b"-2 * 3", &[], -6_000_000),
    (b"2 - -3", &[], 5_000_000),
    (b"-x", &[5_000_000], -5_000_000),
    (b"--x", &[5_000_000], 5_000_000),
    (b"-x", &[-GREATEST], GREATEST),
    (b"-x + y", &[5_000_000, 2_000_000], -3_000_000),
    (b"i * 1000 + ring_a", &[3_000_000, 1_000_000], 3_001_000_000),
];

/// Products and quotients that lie between two values: the nearest one, a half goes up.
const ROUNDED: Rows = &[
    (b"0.000001 * 0.5", &[], 1),
    (b"-0.000001 * 0.5", &[], 0),
    (b"0.000001 * 0.499999", &[], 0),
    (b"0.000003 * 0.5", &[], 2),
    (b"0.000003 * -0.5", &[], -1),
    (b"x * y", &[-1, 500_001], -1),
    (b"0.000001 / 2", &[], 1),
    (b"-0.000001 / 2", &[], 0),
    (b"0.000001 / -2", &[], 0),
    (b"0.000003 / -2", &[], -1),
    (b"-0.000003 / -2", &[], 2),
    (b"1 / 3", &[], 333_333),
    (b"2 / 3", &[], 666_667),
    (b"-1 / 3", &[], -333_333),
    (b"-2 / 3", &[], -666_667),
    (b"2 / 3 * 3", &[], 2_000_001),
    (b"7 / -2", &[], -3_500_000),
    (b"-7 / -2", &[], 3_500_000),
    (b"x / 0", &[5_000_000], 0),
    (b"x / y", &[-GREATEST, 0], 0),
    (b"0 / 0", &[], 0),
    (b"1 + x / (x - x)", &[5_000_000], 1_000_000),
];

/// Values past both ends of the range.
const CLIPPED: Rows = &[
    (b"x + 0.000001", &[GREATEST], GREATEST),
    (b"x + y", &[-GREATEST, -1], -GREATEST),
    (b"x + x", &[-GREATEST], -GREATEST),
    (b"x - y", &[-GREATEST, 1], -GREATEST),
    (b"x - y", &[GREATEST, -1], GREATEST),
    (b"x * 2", &[GREATEST], GREATEST),
    (b"x * -2", &[GREATEST], -GREATEST),
    (b"x * y", &[-GREATEST, -GREATEST], GREATEST),
    (b"x / 0.5", &[GREATEST], GREATEST),
    (b"x / -0.5", &[GREATEST], -GREATEST),
    (b"x / 0.000001", &[-GREATEST], -GREATEST),
    (b"x / y", &[-GREATEST, -1], GREATEST),
    (b"x + 1 - 1", &[GREATEST], 999_999_999_000_000),
    (b"x - 1 + 1", &[GREATEST], GREATEST),
    (b"x * 2 / 2", &[GREATEST], 500_000_000_000_000),
    (b"x * 1", &[-GREATEST], -GREATEST),
    (b"x + 0", &[GREATEST], GREATEST),
];

/// Functions.
const FUNCTIONS: Rows = &[
    (b"min(x, y)", &[-1_000_000, 2_000_000], -1_000_000),
    (b"min(x, y)", &[2_000_000, -1_000_000], -1_000_000),
    (b"min(x, 2)", &[2_000_000], 2_000_000),
    (b"max(x, y)", &[-1_000_000, 2_000_000], 2_000_000),
    (b"max(x, y)", &[2_000_000, -1_000_000], 2_000_000),
    (b"max(x, y)", &[-2, -1], -1),
    (b"abs(x)", &[-1_500_000], 1_500_000),
    (b"abs(x)", &[1], 1),
    (b"abs(x)", &[0], 0),
    (b"abs(x)", &[-GREATEST], GREATEST),
    (b"sel(x, 2, 3)", &[-1_000_000], 3_000_000),
    (b"sel(x, 2, 3)", &[-1], 3_000_000),
    (b"sel(x, 2, 3)", &[0], 3_000_000),
    (b"sel(x, 2, 3)", &[1], 2_000_000),
    (b"sel(x, 2, 3)", &[1_000_000], 2_000_000),
    (b"sel(x - y, x, y)", &[4_000_000, 3_000_000], 4_000_000),
    (
        b"min(1, max(0, x + (y - 5) / 1000))",
        &[500_000, 15_000_000],
        510_000,
    ),
    (
        b"min(1, max(0, x + (y - 5) / 1000))",
        &[1_000_000, 15_000_000],
        1_000_000,
    ),
    (
        b"min(1, max(0, x + (y - 5) / 1000))",
        &[1_000, -15_000_000],
        0,
    ),
];

/// What spreads a flux over its neighbours.
const FLUX: &[u8] =
    b"flux + 0.05 * (flux[1,0] + flux[-1,0] + flux[0,1] + flux[0,-1] - 4 * flux) - temp / 100";

/// Its values, at the cell, at its four neighbours and at the temperature.
const FLUXES: Rows = &[
    (FLUX, &[0, 0, 0, 0, 0, 0], 0),
    (
        FLUX,
        &[
            10_000_000, 12_000_000, 8_000_000, 11_000_000, 9_000_000, 15_000_000,
        ],
        9_850_000,
    ),
    (
        FLUX,
        &[
            1_000_000,
            2_000_000,
            3_000_000,
            4_000_000,
            5_000_000,
            -20_000_000,
        ],
        1_700_000,
    ),
    (FLUX, &[1, 0, 0, 0, 0, 50], 0),
    (FLUX, &[0, 10, 0, 0, 0, 0], 1),
    (FLUX, &[0, 0, -10, 0, 0, 0], 0),
    (FLUX, &[0, 0, 0, -30, 0, -50], -1),
    (FLUX, &[0, 0, 0, 0, 1_000_000, 0], 50_000),
    (
        FLUX,
        &[GREATEST, GREATEST, GREATEST, GREATEST, GREATEST, GREATEST],
        990_000_000_000_000,
    ),
];

/// The value of a text, if it is a formula of so many reads.
fn value_of(alloc: Global, text: &[u8], inputs: &[i64]) -> Option<i64> {
    match &read(alloc, text) {
        Ok(parsed) => worth(parsed, inputs),
        Err(_) => None,
    }
}

#[test]
fn values_of_formulas(rt: HostRuntime) -> Result<(), Fail> {
    for rows in [OPERATORS, ROUNDED, CLIPPED, FUNCTIONS, FLUXES] {
        for (text, inputs, wanted) in rows {
            let found = value_of(rt.alloc(), *text, *inputs);
            assert_eq!(rt; found, Some(*wanted), "at {text:?} of {inputs:?}");
        }
    }
    Ok(())
}
