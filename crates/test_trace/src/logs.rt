//! Logs that are merged: small ones that the cases write out, and those of 64 PETs.

ghost use Rattle.std.specs.Prelude.{◌≡◌, ◌<◌, All, IsTrue};
ghost use Rattle.cpl_trace.specs.Rows.{IsAscending, IsSmall, is_before};
ghost use Rattle.test_trace.specs.Own.{IsOwn};

use cpl_trace::{PetLog, TraceRow, merge_logs, trace_examples};
use std::alloc::Global;
use std::test::Fail;

/// An operation, a field and a sum.
type Short = (u32, u8, i128);

/// Logs, and what they are merged to.
const CASES: [(&[&[Short]], &[Short]); 15] = [
    // no logs, and logs without rows
    (&[], &[]),
    (&[&[]], &[]),
    (&[&[], &[], &[]], &[]),
    // one log
    (&[&[(3, 0, 5)]], &[(3, 0, 5)]),
    (
        &[&[(3, 0, 5), (3, 1, -6), (6, 0, 7)]],
        &[(3, 0, 5), (3, 1, -6), (6, 0, 7)],
    ),
    // different operations and fields, in any order of logs
    (&[&[(3, 0, 5)], &[(6, 0, 7)]], &[(3, 0, 5), (6, 0, 7)]),
    (&[&[(6, 0, 7)], &[(3, 0, 5)]], &[(3, 0, 5), (6, 0, 7)]),
    (&[&[(3, 1, 5)], &[(3, 0, 7)]], &[(3, 0, 7), (3, 1, 5)]),
    (
        &[&[(3, 1, 5), (9, 0, 1)], &[(3, 0, 7), (6, 5, 2)]],
        &[(3, 0, 7), (3, 1, 5), (6, 5, 2), (9, 0, 1)],
    ),
    // equal ones, whose sums are added
    (&[&[(3, 0, 5)], &[(3, 0, -5)]], &[(3, 0, 0)]),
    (&[&[(3, 0, -5)], &[(3, 0, -7)]], &[(3, 0, -12)]),
    (
        &[&[(3, 0, 5)], &[], &[(3, 0, 7)], &[], &[(3, 0, 9)]],
        &[(3, 0, 21)],
    ),
    (
        &[
            &[(3, 0, 1), (6, 0, 2), (9, 0, 3)],
            &[(6, 0, 10)],
            &[(3, 0, 100), (9, 0, 100)],
        ],
        &[(3, 0, 101), (6, 0, 12), (9, 0, 103)],
    ),
    // the greatest sums
    (&[&[(3, 0, MOST)], &[(3, 0, MOST)]], &[(3, 0, 2 * MOST)]),
    (&[&[(3, 0, -MOST)], &[(3, 0, MOST)]], &[(3, 0, 0)]),
];

/// The greatest sum of a log.
const MOST: i128 = 0xf_ffff_ffff_ffff_ffff_ffff_ffff;

/// So many PETs there are at most.
const PETS: u32 = 64;

/// So many operations their logs are of.
const OPERATIONS: u32 = 50;

/// A row whose other columns follow from its operation and its field.
fn row_of(short: Short) -> TraceRow {
    let (op, field, sum) = short;
    TraceRow {
        op: u64::from(op),
        component: field,
        phase: field,
        field: u16::from(field),
        stamp: i64::from(op),
        sum,
    }
}

/// A log of these rows, as far as there is room.
fn log_of(alloc: Global, rows: &[Short]) -> Result<PetLog, Fail> {
    let mut log = PetLog::reserve(alloc, 100)?;
    for row in rows {
        if log.room() > 0 {
            log.push(row_of(*row));
        }
    }
    Ok(log)
}

/// Whether a row's other columns follow from its operation and its field.
fn is_own(row: &TraceRow) -> bool
    ensures { IsTrue result → IsOwn row.now }
{
    u16::from(row.component) == row.field
        && u16::from(row.phase) == row.field
        && i128::from(row.stamp) == i128::from(row.op)
}

/// Whether all rows' are.
fn are_own(rows: &[TraceRow]) -> bool
    ensures { IsTrue result → All IsOwn rows.now }
{
    rows.iter().all(|row| is_own(row))
}

/// Whether a sum may be logged.
fn is_small(row: &TraceRow) -> bool
    ensures { IsTrue result → IsSmall row.now }
{
    row.sum.unsigned_abs() < 1 << 100
}

/// Whether all sums may.
fn are_small(rows: &[TraceRow]) -> bool
    ensures { IsTrue result → All IsSmall rows.now }
{
    rows.iter().all(|row| is_small(row))
}

/// Whether rows are ascending.
fn is_ascending(rows: &[TraceRow]) -> bool
    ensures { IsTrue result → IsAscending rows.now }
{
    match rows {
        [] => true,
        [row, rest @ ..] => { rest.iter().all(|later| is_before(row, later)) && is_ascending(rest) }
    }
}

/// Whether a row stands before another.
fn is_before(row: &TraceRow, other: &TraceRow) -> bool
    ensures { result ≡ is_before row.now other.now }
{
    row.op < other.op || (row.op == other.op && row.field < other.field)
}

/// What logs are merged to; nothing where they may not be merged.
fn merged(alloc: Global, logs: &[PetLog]) -> Result<Option<Vec<TraceRow>>, Fail> {
    let ascending = logs.iter().all(|log| is_ascending(log.rows()));
    let small = logs.iter().all(|log| are_small(log.rows()));
    let own = logs.iter().all(|log| are_own(log.rows()));
    if ascending && small && own && logs.len() <= 64 {
        Ok(Some(merge_logs(alloc, logs)?))
    } else {
        Ok(None)
    }
}

#[test]
fn cases(rt: HostRuntime) -> Result<(), Fail> {
    let alloc = rt.alloc();
    trace_examples();
    for (place, (shorts, wanted)) in CASES.iter().enumerate() {
        let mut logs = Vec::new(alloc);
        for rows in *shorts {
            logs.push(log_of(alloc, *rows)?)?;
        }
        let rows = merged(alloc, logs.as_slice())?.ok_or("not logs")?;
        assert_eq!(rt; rows.len(), wanted.len(), "case {place}");
        for k in 0..wanted.len() {
            assert_eq!(rt;
                rows.get(k).copied(),
                wanted.get(k).copied().map(row_of),
                "case {place}"
            );
        }
    }
    Ok(())
}

/// What a PET logs of an operation: each third one, and nothing on each fifth PET.
fn sum_on(pet: u32, op: u32) -> Option<i128>
    requires pet { pet < 64 }
    requires op { op < 50 }
{
    if pet % 5 == 0 || (pet + op) % 3 != 0 {
        return None;
    }
    Some(i128::from(pet) * MOST / 64 - i128::from(op))
}

/// The sum over all PETs, and whether any has one.
fn sum_of(op: u32) -> Option<i128>
    requires { op < 50 }
{
    let mut sum = None;
    for pet in 0..PETS {
        if let Some(more) = sum_on(pet, op) {
            sum = Some(more.wrapping_add(sum.unwrap_or(0)));
        }
    }
    sum
}

#[test]
fn many(rt: HostRuntime) -> Result<(), Fail> {
    let alloc = rt.alloc();
    let mut logs = Vec::new(alloc);
    for pet in 0..PETS {
        let mut log = PetLog::reserve(alloc, OPERATIONS)?;
        for op in 0..OPERATIONS {
            if let Some(sum) = sum_on(pet, op) {
                if log.room() > 0 {
                    log.push(row_of((op, 7, sum)));
                }
            }
        }
        logs.push(log)?;
    }
    let rows = merged(alloc, logs.as_slice())?.ok_or("not logs")?;
    assert_eq!(rt; rows.len(), OPERATIONS as usize);
    for op in 0..OPERATIONS {
        let wanted = sum_of(op).map(|sum| row_of((op, 7, sum)));
        assert_eq!(rt; rows.get(op as usize).copied(), wanted);
    }
    Ok(())
}
