//! Rounded quotients, and products and quotients of values, at the ends of their ranges.

use cpl_base::{Divisor, div, mul, near, rounding_examples};
use std::test::Fail;

/// The greatest value.
const GREATEST: i64 = 1_000_000_000_000_000;

/// The greatest number that is rounded.
const LIMIT: i128 = 1_329_227_995_784_915_872_903_807_060_280_344_576;

#[test]
fn quotients_rounded(rt: HostRuntime) -> Result<(), Fail> {
    let rounded = [
        (1, 2, 1),
        (-1, 2, 0),
        (-3, 2, -1),
        (5, 3, 2),
        (-5, 3, -2),
        (0, LIMIT, 0),
        (LIMIT, 1, LIMIT),
        (-LIMIT, 1, -LIMIT),
        (-LIMIT, LIMIT, -1),
        (18_446_744_073_709_551_615, 2, 9_223_372_036_854_775_808),
        (-18_446_744_073_709_551_615, 2, -9_223_372_036_854_775_807),
        (18_446_744_073_709_551_617, 2, 9_223_372_036_854_775_809),
        (-18_446_744_073_709_551_617, 2, -9_223_372_036_854_775_808),
    ];
    for (n, d, wanted) in rounded {
        assert!(rt; -LIMIT <= n && n <= LIMIT && 0 < d && d <= LIMIT);
        assert_eq!(rt; near(n, d), wanted, "{n} by {d}");
    }
    Ok(())
}

#[test]
fn products_and_quotients(rt: HostRuntime) -> Result<(), Fail> {
    let products = [
        (1, 500_000, 1),
        (-1, 500_000, 0),
        (-3, 500_000, -1),
        (3, 333_333, 1),
        (0, -5, 0),
        (GREATEST, 1_000_000, GREATEST),
        (GREATEST, -1, -1_000_000_000),
        (GREATEST, 1_000_001, GREATEST),
        (GREATEST, GREATEST, GREATEST),
        (-GREATEST, GREATEST, -GREATEST),
    ];
    for (a, b, wanted) in products {
        assert!(rt; -GREATEST <= a && a <= GREATEST && -GREATEST <= b && b <= GREATEST);
        assert_eq!(rt; mul(a, b), wanted, "{a} by {b}");
    }
    let quotients = [
        (5, 0, 0),
        (1, 2_000_000, 1),
        (-1, 2_000_000, 0),
        (-3_000_000, 2_000_000, -1_500_000),
        (3_000_000, -2_000_000, -1_500_000),
        (-3_000_000, -2_000_000, 1_500_000),
        (1, GREATEST, 0),
        (GREATEST, GREATEST, 1_000_000),
        (GREATEST, 3_000_000, 333_333_333_333_333),
        (GREATEST, 1, GREATEST),
        (GREATEST, -1, -GREATEST),
    ];
    for (a, b, wanted) in quotients {
        assert!(rt; -GREATEST <= a && a <= GREATEST && -GREATEST <= b && b <= GREATEST);
        assert_eq!(rt; div(a, b), wanted, "{a} by {b}");
    }
    rounding_examples();
    Ok(())
}

#[test]
fn prepared_divisors(rt: HostRuntime) -> Result<(), Fail> {
    // By no other number than whole thousandths above 0.
    for divisor in [0, -1000, 1, 999, 1001, -GREATEST] {
        assert!(rt; Divisor::new(divisor).is_none(), "{divisor}");
    }
    let values = [
        0,
        1,
        -1,
        499,
        500,
        -500,
        -501,
        1_499_999,
        1_500_000,
        -1_500_000,
        -1_500_001,
        GREATEST,
        -GREATEST,
        999_999_999_999_999,
    ];
    for divisor in [
        1000,
        2000,
        3000,
        7000,
        1_000_000,
        100_000_000,
        999_999_999_999_000,
        GREATEST,
    ] {
        let prepared = Divisor::new(divisor).ok_or("whole thousandths")?;
        for a in values {
            assert!(rt; -GREATEST <= a && a <= GREATEST && 0 < divisor && divisor <= GREATEST);
            assert_eq!(rt;
                prepared.quotient_of(a),
                div(a, divisor),
                "{a} by {divisor}"
            );
        }
    }
    Ok(())
}
