//! Averages of kept fields of two cells: few and many, without any, and beyond 64 bits.

ghost use Rattle.std.specs.Prelude.{◌≡◌, length};

use cpl_base::GREATEST;
use cpl_mediator::{Accum, AverageEmpty, average_examples};
use std::test::Fail;

/// The greatest value and the least.
const MOST: i64 = GREATEST as i64;

/// Kept fields, and their averages.
const FEW: [(&[[i64; 2]], [i64; 2]); 12] = [
    // three kept values of 1, 2 and 4
    (
        &[[1_000_000, 0], [2_000_000, 0], [4_000_000, 0]],
        [2_333_333, 0],
    ),
    // one field is its own average
    (&[[5, -5]], [5, -5]),
    (&[[i64::MAX, i64::MIN]], [i64::MAX, i64::MIN]),
    // a half goes up, below 0 too
    (&[[1, -1], [2, -2]], [2, -1]),
    (&[[0, 0], [1, -1]], [1, 0]),
    (&[[3, -3], [0, 0]], [2, -1]),
    (&[[7, -7], [0, 0], [0, 0], [3, -3]], [3, -2]),
    // less than half goes down, more than half goes up
    (&[[1, -1], [0, 0], [0, 0]], [0, 0]),
    (&[[1, -1], [1, -1], [0, 0]], [1, -1]),
    // sums beyond 64 bits
    (
        &[[i64::MAX, i64::MIN], [i64::MAX, i64::MIN]],
        [i64::MAX, i64::MIN],
    ),
    (&[[i64::MAX, i64::MIN], [i64::MIN, i64::MAX]], [0, 0]),
    (
        &[
            [i64::MAX, i64::MIN],
            [i64::MAX, i64::MIN],
            [i64::MAX - 2, i64::MIN + 1],
        ],
        [i64::MAX - 1, i64::MIN],
    ),
];

/// Two fields that are kept by turns, 20,000 in all, and their averages. The sums of most leave 64 bits.
const MANY: [([i64; 2], [i64; 2], [i64; 2]); 4] = [
    ([MOST, -MOST], [MOST, -MOST], [MOST, -MOST]),
    ([MOST, -MOST], [MOST - 1, 1 - MOST], [MOST, 1 - MOST]),
    (
        [i64::MAX, i64::MIN],
        [i64::MAX, i64::MIN],
        [i64::MAX, i64::MIN],
    ),
    ([MOST, 1], [-MOST, -2], [0, 0]),
];

/// So many fields are kept of two that take turns.
const COUNT: u32 = 20_000;

/// So many an `Accum` takes.
const ROOM: u32 = 16_777_216;

/// Keeps a field where there is room.
fn keep(accum: &mut Accum, field: &[i64; 2])
    requires { length accum.old.sums ≡ 2 }
    ensures { length accum.new.sums ≡ 2 }
{
    if accum.count() < ROOM {
        accum.add(field);
    }
}

#[test]
fn few(rt: HostRuntime) -> Result<(), Fail> {
    average_examples();
    let mut accum = Accum::new(rt.alloc(), 2)?;
    for (place, (fields, wanted)) in FEW.iter().enumerate() {
        let mut into = [8, 9];
        assert_eq!(rt; accum.average(&mut into), Err(AverageEmpty), "case {place}");
        assert_eq!(rt; into, [8, 9], "case {place}");
        'keep: for field in *fields {
            keep(&mut accum, field);
        }
        assert_eq!(rt; accum.average(&mut into), Ok(()), "case {place}");
        assert_eq!(rt; into, *wanted, "case {place}");
    }
    Ok(())
}

#[test]
fn many(rt: HostRuntime) -> Result<(), Fail> {
    let mut accum = Accum::new(rt.alloc(), 2)?;
    for (place, (first, second, wanted)) in MANY.iter().enumerate() {
        'keep: for turn in 0..COUNT {
            keep(&mut accum, if turn % 2 == 0 { first } else { second });
        }
        assert_eq!(rt; accum.count(), COUNT, "case {place}");
        let mut into = [8, 9];
        assert_eq!(rt; accum.average(&mut into), Ok(()), "case {place}");
        assert_eq!(rt; into, *wanted, "case {place}");
        assert_eq!(rt; accum.count(), 0, "case {place}");
    }
    Ok(())
}

#[test]
fn no_cells(rt: HostRuntime) -> Result<(), Fail> {
    let mut accum = Accum::new(rt.alloc(), 0)?;
    let mut into = [0i64; 0];
    assert_eq!(rt; accum.average(&mut into), Err(AverageEmpty));
    accum.add(&[]);
    assert_eq!(rt; accum.average(&mut into), Ok(()));
    Ok(())
}
