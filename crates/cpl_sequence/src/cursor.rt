//! A place among the operations of a run sequence.

ghost use Rattle.std.specs.Prelude.{◌≡◌, ◌<◌, ◌≤◌, ◌+◌, ◌-◌, ◌^◌, ℕ, List, [], ◌∷◌, Some, IfOk, IfSome, MatchOption, drop, length, min, slice_get};
ghost use Rattle.cpl_sequence.specs.Remainder.{IsFilledFrom};

use crate::element::TopLoop;
use crate::frame::Frame;
use crate::op::Op;
use crate::ops::{last_up_to, top_op};
use crate::seq::Seq;
use crate::turns::{step_loop, turn_to};
use cpl_base::Memory;
use sqlite_items::{Items, at};
use std::alloc::Global;
use std::marker::Model;

/// Loops nest at most 8 deep, and a run has a frame of its own.
const LEVELS: usize = 9;

/// A place among the operations of a run sequence, which goes from each to the next.
///
/// Contracts see the loop at which it stands, and where in it and in the loops below.
///
/// Source: this project's own.
#[derive(Drop)]
pub struct Cursor {
    top: usize,
    frames: Items<Frame>,
}

impl Model for Cursor {
    ghost use Rattle.cpl_sequence.specs.Remainder.{Spot};

    ghost Value = { Spot };

    ghost view = { λ cursor. record { top = cursor.top; frames = cursor.frames } };
}

impl Cursor {
    ghost use Rattle.cpl_sequence.specs.Bounds.{IsOpOver, IsOpWithin, IsOver};
    ghost use Rattle.cpl_sequence.specs.Remainder.{IsCursorOf, remainder};
    ghost use Rattle.cpl_sequence.specs.Operations.{operations_of};
    ghost use Rattle.cpl_sequence.specs.declared.seq_name.SeqName.{SeqName};

    /// The k-th operation of a sequence, from 0: a division and a search at each level of the tree. It is a link
    /// or a run, and within the bounds of the sequence. Takes no memory.
    ///
    /// `k` is below the number of operations, and below the greatest `u64`.
    ///
    /// Source: this project's own.
    pub fn op(seq: &Seq, k: u64) -> Op
        requires { k < min (length (operations_of seq.now)) (2 ^ 64 - 1) }
        ensures value { slice_get (operations_of seq.now) k ≡ Some result }
        ensures within { IsOpWithin seq.now result }
        ensures over { (names : List SeqName) → IsOver names seq.now → IsOpOver names result }
    {
        let place = last_up_to(seq.marks(), k);
        let mark = &seq.marks()[place];
        top_op(&seq.loops()[place], mark, k - mark.before)
    }

    /// A cursor before the first operation of a sequence, with the room that `next` uses. Takes time in the
    /// number of top loops in which nothing runs before the first operation.
    ///
    /// Errors: `Memory` alone.
    ///
    /// Source: this project's own.
    pub fn start(alloc: Global, seq: &Seq) -> Result<Cursor, Memory>
        ensures of { IfOk result (λ cursor. IsCursorOf seq.now cursor) }
        ensures all { IfOk result (λ cursor. remainder seq.now cursor ≡ operations_of seq.now) }
    {
        let frames = vec![in alloc; Frame::START; LEVELS]?;
        Ok(Cursor {
            top: filled_from(seq.loops(), 0),
            frames: Items::from_vec(frames),
        })
    }

    /// The next operation of the sequence for which the cursor was started, or nothing exactly past the end. It
    /// is a link or a run, and within the bounds of the sequence. Takes no memory. A pass over all operations
    /// takes time in their number and that of the top loops.
    ///
    /// Source: this project's own.
    pub fn next(&mut self, seq: &Seq) -> Option<Op>
        requires { IsCursorOf seq.now self.old }
        ensures of { IsCursorOf seq.now self.new }
        ensures gives { MatchOption result ((remainder seq.now self.old ≡ []) × (remainder seq.now self.new ≡ [])) (λ op. remainder seq.now self.old ≡ op ∷ remainder seq.now self.new) }
        // The k-th call gives the k-th operation, from 0.
        ensures in_order { (k : ℕ) → remainder seq.now self.old ≡ drop k (operations_of seq.now)
            → (result ≡ slice_get (operations_of seq.now) k) × (remainder seq.now self.new ≡ drop (k + 1) (operations_of seq.now)) }
        ensures within { IfSome result (IsOpWithin seq.now) }
        ensures over { IfSome result (λ op. (names : List SeqName) → IsOver names seq.now → IsOpOver names op) }
    {
        let Some(top) = at(seq.loops(), self.top) else {
            return None;
        };
        let made = step_loop(
            top.step,
            top.duration,
            top.body.as_slice(),
            top.begin,
            self.frames.as_slice(),
        );
        match made.turn {
            Some(turn) => turn_to(&mut self.frames, turn.level, turn.frame),
            None => {
                self.top = filled_from(seq.loops(), self.top + 1);
                turn_to(&mut self.frames, 0, Frame::START);
            }
        }
        Some(made.op)
    }
}

/// The place of the first loop from a place on in which something runs; past the last where there is none.
fn filled_from(tops: &[TopLoop], from: usize) -> usize
    requires { from ≤ length tops.now }
    ensures { IsFilledFrom tops.now from result }
{
    for place in from..tops.len() {
        if !tops[place].body.is_empty() {
            return place;
        }
    }
    tops.len()
}
