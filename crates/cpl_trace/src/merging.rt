//! The logs of all PETs, merged to one list of rows.

ghost use Rattle.std.specs.Prelude.{◌≡◌, ◌^◌, ◌≤◌, List, All, IfOk, length, unsigned_abs};
ghost use Rattle.cpl_trace.specs.Merging.{AreLogs, IsMerged, rows_of};
ghost use Rattle.cpl_trace.specs.Rows.{AgreesWith, IsAscending, IsSmall, is_before};
ghost use Rattle.cpl_trace.specs.Steps.{IsSummed, IsWithin, joined, merge_rows};
ghost use Rattle.cpl_trace.specs.declared.row.TraceRow.{TraceRow};

use crate::log::PetLog;
use crate::row::TraceRow;
use cpl_base::Memory;
use std::alloc::Global;

/// One row for each operation and field that some log has a row of, by operation and field: its sum is the exact sum of
/// all these rows, its other columns are theirs. There are at most 64 logs, each ascending by operation and field, with
/// sums below 2^100 in size, and rows of one operation and field agree in component, phase and stamp.
///
/// Errors: `Memory` where memory runs out.
///
/// Source: this project's own.
pub fn merge_logs(alloc: Global, logs: &[PetLog]) -> Result<Vec<TraceRow>, Memory>
    requires count { length logs.now ≤ 64 }
    requires logs { AreLogs logs.now }
    ensures merged { IfOk result (λ rows. IsMerged (rows_of logs.now) rows.items) }
    // No other list of rows is.
    ensures unique { IfOk result (λ rows. (others : List TraceRow) → IsMerged (rows_of logs.now) others
        → others ≡ rows.items) }
{
    let rows = merge_all(alloc, logs)?;
    Ok(rows)
}

/// The same, of the logs of either half, and the two merged.
fn merge_all(alloc: Global, logs: &[PetLog]) -> Result<Vec<TraceRow>, Memory>
    requires count { length logs.now ≤ 64 }
    requires ascending { All (λ log. IsAscending log.rows) logs.now }
    requires small { All (λ log. All IsSmall log.rows) logs.now }
    ensures summed { IfOk result (λ rows. IsSummed (rows_of logs.now) rows.items) }
    ensures columns { IfOk result (λ rows. (given : List TraceRow) → All (AgreesWith given) (rows_of logs.now)
        → All (AgreesWith given) rows.items) }
    ensures within { IfOk result (λ rows. All (IsWithin (length logs.now)) rows.items) }
{
    if logs.len() <= 1 {
        return match logs.first() {
            Some(log) => Ok(Vec::from_slice(alloc, log.rows())?),
            None => Ok(Vec::new(alloc)),
        };
    }
    let (left, right) = logs.split_at(logs.len() / 2);
    let left = merge_all(alloc, left)?;
    let right = merge_all(alloc, right)?;
    let rows = merge_pair(alloc, left.as_slice(), right.as_slice())?;
    Ok(rows)
}

/// Two lists of rows, merged.
fn merge_pair(alloc: Global, left: &[TraceRow], right: &[TraceRow]) -> Result<Vec<TraceRow>, Memory>
    requires left { All (λ row. unsigned_abs row.sum ≤ 2 ^ 110) left.now }
    requires right { All (λ row. unsigned_abs row.sum ≤ 2 ^ 110) right.now }
    ensures { IfOk result (λ rows. rows.items ≡ merge_rows left.now right.now) }
{
    let mut rows = Vec::with_capacity(alloc, left.len() + right.len())?;
    let mut i = 0;
    let mut j = 0;
    while i < left.len() && j < right.len() {
        let row = left[i];
        let other = right[j];
        if is_before(&row, &other) {
            rows.push(row)?;
            i += 1;
        } else if is_before(&other, &row) {
            rows.push(other)?;
            j += 1;
        } else {
            rows.push(joined(&row, &other))?;
            i += 1;
            j += 1;
        }
    }
    rows.extend_from_slice(&left[i..])?;
    rows.extend_from_slice(&right[j..])?;
    Ok(rows)
}

/// Whether a row stands before another, by operation and field.
fn is_before(row: &TraceRow, other: &TraceRow) -> bool
    ensures { result ≡ is_before row.now other.now }
{
    row.op < other.op || (row.op == other.op && row.field < other.field)
}

/// A row with the sum of another added.
fn joined(row: &TraceRow, other: &TraceRow) -> TraceRow
    requires row { unsigned_abs row.now.sum ≤ 2 ^ 110 }
    requires other { unsigned_abs other.now.sum ≤ 2 ^ 110 }
    ensures { result ≡ joined row.now other.now }
{
    TraceRow {
        sum: row.sum + other.sum,
        ..*row
    }
}
