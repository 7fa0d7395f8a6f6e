//! Weighted sums: worked rows, and rows as long as they may be.

ghost use Rattle.std.specs.Prelude.{◌≤◌, ◌↔◌, All, IsTrue, unsigned_abs};

use cpl_smm::apply_row;
use std::test::Fail;

/// Rows, values of their source cells in millionths, and what the rows make of them. The weights are in billionths.
const CASES: [(&[(u32, i64)], &[i64], i64); 22] = [
    (&[(1, 500_000_000)], &[1], 1),
    (&[(1, 500_000_000)], &[-1], 0),
    (&[(1, 500_000_000)], &[3], 2),
    (&[(1, 500_000_000)], &[-3], -1),
    (
        &[(1, 333_333_333), (2, 333_333_333), (3, 333_333_333)],
        &[1, 1, 1],
        1,
    ),
    (
        &[(1, 333_333_333), (2, 333_333_333), (3, 333_333_333)],
        &[-1, -1, -1],
        -1,
    ),
    (&[(1, 400_000_000), (2, 400_000_000)], &[1, 1], 1),
    (&[(1, 499_999_999)], &[1], 0),
    (&[(1, 499_999_999)], &[-1], 0),
    (&[(1, 500_000_001)], &[-1], -1),
    (&[], &[], 0),
    (&[(7, 0)], &[1_000_000_000_000_000], 0),
    (
        &[(1, 1_000_000_000)],
        &[1_000_000_000_000_000],
        1_000_000_000_000_000,
    ),
    (
        &[(1, 1_000_000_001)],
        &[1_000_000_000_000_000],
        1_000_000_000_000_000,
    ),
    (
        &[(1, 999_999_999)],
        &[1_000_000_000_000_000],
        999_999_999_000_000,
    ),
    (
        &[(1, 1_000_000_000_000)],
        &[-1_000_000_000_000_000],
        -1_000_000_000_000_000,
    ),
    (
        &[
            (1, 1_000_000_000_000),
            (2, -1_000_000_000_000),
            (3, 500_000_000),
        ],
        &[1_000_000_000_000_000, 1_000_000_000_000_000, 3],
        2,
    ),
    (
        &[
            (1, -1_000_000_000_000),
            (2, 1_000_000_000_000),
            (3, -500_000_000),
        ],
        &[1_000_000_000_000_000, 1_000_000_000_000_000, 3],
        -1,
    ),
    (
        &[(1, 123_456_789), (9, -987_654_321)],
        &[101_325_000_000, 300_150_000],
        12_212_814_701,
    ),
    (
        &[(1, 1_000_000_000), (2, 1_000_000_000)],
        &[999_999_999_999_999, 1],
        1_000_000_000_000_000,
    ),
    (
        &[(1, 999_999_999_999), (2, 3)],
        &[999_999_999_999, 7],
        999_999_999_998_000,
    ),
    (
        &[(1, -1), (2, -1), (3, -1)],
        &[500_000_000, 500_000_000, -1_500_000_000],
        1,
    ),
];

/// A row has so many entries at most.
const MOST: usize = 1_048_576;

/// Whether all weights are in range.
fn are_weights(row: &[(u32, i64)]) -> bool
    ensures { IsTrue result ↔ All (λ entry. unsigned_abs entry.1 ≤ 1000000000000) row.now }
{
    row.iter()
        .all(|entry| entry.1.unsigned_abs() <= 1_000_000_000_000)
}

/// Whether all are values.
fn are_values(values: &[i64]) -> bool
    ensures { IsTrue result ↔ All (λ value. unsigned_abs value ≤ 1000000000000000) values.now }
{
    values
        .iter()
        .all(|value| value.unsigned_abs() <= 1_000_000_000_000_000)
}

/// What a row makes of values, where it may be asked.
fn image_of(row: &[(u32, i64)], values: &[i64]) -> Option<i64> {
    if row.len() > MOST || values.len() != row.len() {
        return None;
    }
    if !are_weights(row) || !are_values(values) {
        return None;
    }
    Some(apply_row(row, values))
}

#[test]
fn cases(rt: HostRuntime) {
    for (place, (row, values, wanted)) in CASES.iter().enumerate() {
        assert_eq!(rt; image_of(*row, *values), Some(*wanted), "case {place}");
    }
}

#[test]
fn longest(rt: HostRuntime) -> Result<(), Fail> {
    let alloc = rt.alloc();
    let mut row = Vec::new(alloc);
    let mut values = Vec::new(alloc);
    for src in 0..1_048_576u32 {
        row.push((src + 1, 1_000_000_000_000))?;
        values.push(1_000_000_000_000_000)?;
    }
    assert_eq!(rt;
        image_of(row.as_slice(), values.as_slice()),
        Some(1_000_000_000_000_000)
    );
    for value in values.iter_mut() {
        *value = -1_000_000_000_000_000;
    }
    assert_eq!(rt;
        image_of(row.as_slice(), values.as_slice()),
        Some(-1_000_000_000_000_000)
    );
    for value in values.iter_mut() {
        *value = 7;
    }
    assert_eq!(rt;
        image_of(row.as_slice(), values.as_slice()),
        Some(7_340_032_000)
    );
    Ok(())
}
