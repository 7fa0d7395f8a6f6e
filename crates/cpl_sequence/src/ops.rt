//! The k-th operation, by a division and a search at each level of the tree.

ghost use Rattle.std.specs.Prelude.{◌≡◌, ◌<◌, ◌≤◌, ◌+◌, ◌*◌, ◌^◌, pos, nat_le, Some, length, slice_get, IsTrue};
ghost use Rattle.cpl_sequence.specs.Marks.{AreRising, IsLastUpTo};
ghost use Rattle.cpl_sequence.specs.Places.{IsAtBody, IsAtElement, IsAtTop};
ghost use Rattle.cpl_sequence.specs.Sound.{is_substep};
ghost use Rattle.cpl_sequence.specs.Operations.{run_ops, element_ops, body_ops, top_ops};
ghost use Rattle.cpl_sequence.specs.declared.marks.Mark.{out-Mark};

use crate::element::{Element, TopLoop};
use crate::marks::Mark;
use crate::op::Op;

/// The k-th operation of a loop that stands in no other.
pub(crate) fn top_op(top: &TopLoop, mark: &Mark, k: u64) -> Op
    requires { IsAtTop top.now mark.now k }
    ensures { slice_get (top_ops top.now) k ≡ Some result }
{
    let time = top.begin + k / mark.round * top.step;
    let within = k % mark.round;
    body_op(
        top.body.as_slice(),
        mark.body.as_slice(),
        time,
        top.step,
        within,
    )
}

/// The k-th operation of a body in one iteration.
#[cycle(walking)]
fn body_op(body: &[Element], marks: &[Mark], time: u64, step: u64, k: u64) -> Op
    requires { IsAtBody body.now marks.now time step k }
    ensures { slice_get (body_ops body.now time step) k ≡ Some result }
{
    let place = last_up_to(marks, k);
    let mark = &marks[place];
    element_op(&body[place], mark, time, step, k - mark.before)
}

/// The k-th operation of an element in one iteration.
#[cycle(walking)]
fn element_op(element: &Element, mark: &Mark, time: u64, step: u64, k: u64) -> Op
    requires { IsAtElement element.now mark.now time step k }
    ensures { slice_get (element_ops element.now time step) k ≡ Some result }
{
    match element {
        Element::Link { link } => Op::Link {
            link: *link,
            at_init: false,
        },
        Element::Run {
            component,
            phase,
            substep,
        } => run_op(*component, *phase, *substep, time, step, k),
        Element::Loop {
            step: inner,
            body,
            ..
        } => {
            let begin = time + k / mark.round * *inner;
            let within = k % mark.round;
            body_op(body.as_slice(), mark.body.as_slice(), begin, *inner, within)
        }
    }
}

/// The k-th operation of a phase in one iteration.
pub(crate) fn run_op(
    component: u8,
    phase: u8,
    substep: Option<u64>,
    time: u64,
    step: u64,
    k: u64,
) -> Op
    requires some { 0 < step }
    requires early { time + step ≤ 2 ^ 40 }
    requires parted { IsTrue (is_substep substep step) }
    requires below { k < length (run_ops component phase time step substep) }
    ensures { slice_get (run_ops component phase time step substep) k ≡ Some result }
{
    let part = substep.unwrap_or(step);
    Op::Run {
        component,
        phase,
        time: seconds(time),
        step: seconds(step),
        at: seconds(time + k * part),
        substep: seconds(part),
        first: k == 0,
        last: k + 1 == step / part,
    }
}

/// A number of seconds, signed.
fn seconds(count: u64) -> i64
    requires { count ≤ 2 ^ 40 }
    ensures { result ≡ pos count }
{
    count as i64
}

/// The place of the last mark before which at most so many operations stand.
pub(crate) fn last_up_to(marks: &[Mark], k: u64) -> usize
    requires { AreRising marks.now }
    ensures { IsLastUpTo marks.now k result }
{
    let behind = marks.partition_point(
        |mark: &Mark| -> bool
            ensures { result ≡ nat_le (out-Mark mark.now).before k }
        { mark.before <= k },
    );
    behind - 1
}
