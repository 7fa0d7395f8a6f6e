//! Merges of up to 32 terms.

ghost use Rattle.std.specs.Prelude.{◌≤◌, ◌↔◌, All, IsTrue, length};
ghost use Rattle.cpl_base.specs.Numbers.{IsValue};
ghost use Rattle.cpl_mediator.specs.Merges.{IsTerm};

use cpl_base::GREATEST;
use cpl_mediator::{merge, merge_examples};
use std::test::Fail;

/// The greatest value and the least.
const MOST: i64 = GREATEST as i64;

/// One unit.
const UNIT: i64 = 1_000_000;

/// Terms, each a value and its factor in millionths, and their merge.
const CASES: [(&[(i64, i64)], i64); 17] = [
    (&[], 0),
    (&[(5, UNIT)], 5),
    (&[(-5, UNIT), (7, UNIT)], 2),
    (&[(4 * UNIT, 250_000), (2 * UNIT, 750_000)], 2_500_000),
    // a half goes up, below 0 too
    (&[(1, 500_000)], 1),
    (&[(-1, 500_000)], 0),
    (&[(-3, 500_000)], -1),
    (&[(1, 499_999)], 0),
    (&[(-1, 500_001)], -1),
    // the sum is rounded, not its products
    (&[(1, 400_000), (1, 400_000)], 1),
    (&[(1, 333_333), (1, 333_333), (1, 333_333)], 1),
    (&[(1, 500_000), (1, 500_000), (-1, 500_000)], 1),
    (&[(MOST, MOST), (1, 500_000), (-MOST, MOST)], 1),
    // at the ends of the range, and past them
    (&[(MOST, UNIT)], MOST),
    (&[(MOST, UNIT), (1, UNIT)], MOST),
    (&[(-MOST, UNIT), (-1, UNIT)], -MOST),
    (
        &[(MOST, UNIT), (MOST, UNIT), (-1, UNIT), (-MOST, UNIT)],
        MOST - 1,
    ),
];

/// As many terms as there may be, all like the first but those at odd places, which are like the second, and their
/// merge.
const LONG: [((i64, i64), (i64, i64), i64); 6] = [
    ((MOST, MOST), (MOST, MOST), MOST),
    ((MOST, -MOST), (MOST, -MOST), -MOST),
    ((-MOST, -MOST), (-MOST, -MOST), MOST),
    ((MOST, MOST), (-MOST, MOST), 0),
    ((MOST, 1), (MOST, 1), 32_000_000_000),
    ((1, 31_250), (0, MOST), 1),
];

/// Whether a number is a value.
fn is_value(number: i64) -> bool
    ensures { IsTrue result ↔ IsValue number }
{
    number.unsigned_abs() <= GREATEST
}

/// Whether these may be merged.
fn are_terms(terms: &[(i64, i64)]) -> bool
    ensures count { IsTrue result → length terms.now ≤ 32 }
    ensures values { IsTrue result → All (λ term. IsValue term.0) terms.now }
    ensures factors { IsTrue result → All (λ term. IsValue term.1) terms.now }
{
    terms.len() <= 32
        && terms.iter().all(|term| is_value(term.0))
        && terms.iter().all(|term| is_value(term.1))
}

#[test]
fn cases(rt: HostRuntime) -> Result<(), Fail> {
    merge_examples();
    for (place, (terms, wanted)) in CASES.iter().enumerate() {
        let are_terms = are_terms(*terms);
        assert!(rt; are_terms, "case {place}");
        assert_eq!(rt; merge(*terms), *wanted, "case {place}");
    }
    Ok(())
}

#[test]
fn long(rt: HostRuntime) -> Result<(), Fail> {
    for (place, (first, second, wanted)) in LONG.iter().enumerate() {
        let mut terms = [*first; 32];
        for k in 0..16 {
            terms[2 * k + 1] = *second;
        }
        let are_terms = are_terms(&terms);
        assert!(rt; are_terms, "case {place}");
        assert_eq!(rt; merge(&terms), *wanted, "case {place}");
    }
    Ok(())
}
