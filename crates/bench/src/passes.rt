//! Passes over all operations, each with a checksum of the times at which they begin.

ghost use Rattle.cpl_runseq.specs.Remainder.{IsCursorOf};

use cpl_runseq::{Cursor, Op, Seq};

/// A checksum with an operation more.
fn with_op(sum: i64, op: Op) -> i64 {
    match op {
        Op::Run { at, .. } => sum.wrapping_mul(31).wrapping_add(at),
        Op::Link { link, .. } => sum.wrapping_mul(37).wrapping_add(i64::from(link)),
        Op::Init { .. } => sum,
    }
}

/// The checksum of a pass from each operation to the next.
pub fn next_sum(cursor: &mut Cursor, sequence: &Seq) -> i64
    requires { IsCursorOf sequence.now cursor.old }
{
    let mut sum = 0i64;
    'operations: for _ in 0..sequence.op_count() {
        if let Some(op) = cursor.next(sequence) {
            sum = with_op(sum, op);
        }
    }
    sum
}

/// The checksum of a pass by the numbers of the operations.
pub fn op_sum(sequence: &Seq) -> i64 {
    let mut sum = 0i64;
    for k in 0..sequence.op_count() {
        sum = with_op(sum, Cursor::op(sequence, k));
    }
    sum
}
