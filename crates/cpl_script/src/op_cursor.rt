//! A place among the operations of a system.

ghost use Rattle.std.specs.Prelude.{◌≡◌, ◌+◌, ℕ, [], ◌∷◌, IfOk, IfSome, MatchOption, drop, slice_get};

use crate::system::System;
use cpl_base::Memory;
use cpl_sequence::{Cursor, Op};
use std::alloc::Global;
use std::marker::Model;

/// A place among the operations of a system, which goes from each to the next.
///
/// Contracts see how many operations of the initialisation it gave, and where it stands in the run sequence.
///
/// Source: this project's own.
#[derive(Drop)]
pub struct OpCursor {
    place: usize,
    run: Cursor,
}

impl Model for OpCursor {
    ghost use Rattle.cpl_script.specs.OpCursors.{OpSpot};

    ghost Value = { OpSpot };

    ghost view = { λ cursor. record { place = cursor.place; spot = cursor.run } };
}

impl OpCursor {
    ghost use Rattle.cpl_script.specs.OpCursors.{IsOpCursorOf, op_remainder};
    ghost use Rattle.cpl_script.specs.Operations.{ops_of};
    ghost use Rattle.cpl_script.specs.Sound.{IsOpOf};

    /// A cursor before the first operation of a system.
    ///
    /// Errors: `Memory` alone.
    ///
    /// Source: this project's own.
    pub fn start(alloc: Global, system: &System) -> Result<OpCursor, Memory>
        ensures of { IfOk result (λ cursor. IsOpCursorOf system.now cursor) }
        ensures all { IfOk result (λ cursor. op_remainder system.now cursor ≡ ops_of system.now) }
    {
        let run = Cursor::start(alloc, system.seq())?;
        Ok(OpCursor { place: 0, run })
    }

    /// The next operation of the system for which the cursor was started, of the initialisation and then of the run
    /// sequence, or nothing exactly past the end. Takes no memory. A pass over all operations takes time in their number
    /// and that of the top loops.
    ///
    /// Source: this project's own.
    pub fn next(&mut self, system: &System) -> Option<Op>
        requires { IsOpCursorOf system.now self.old }
        ensures of { IsOpCursorOf system.now self.new }
        ensures gives { MatchOption result ((op_remainder system.now self.old ≡ []) × (op_remainder system.now self.new ≡ []))
            (λ op. op_remainder system.now self.old ≡ op ∷ op_remainder system.now self.new) }
        // The k-th call gives the k-th operation, from 0.
        ensures in_order { (k : ℕ) → op_remainder system.now self.old ≡ drop k (ops_of system.now)
            → (result ≡ slice_get (ops_of system.now) k) × (op_remainder system.now self.new ≡ drop (k + 1) (ops_of system.now)) }
        ensures op { IfSome result (IsOpOf system.now) }
    {
        let ops = system.init_ops();
        if self.place < ops.len() {
            let op = ops[self.place];
            self.place += 1;
            return Some(op);
        }
        self.run.next(system.seq())
    }
}
