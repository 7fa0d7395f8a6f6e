//! The steps of a cursor: an operation, and the turn to the next one.

ghost use Rattle.std.specs.Prelude.{◌≡◌, ◌<◌, ◌≤◌, ◌+◌, ◌-◌, ◌^◌, IfSome, length, IsTrue};
ghost use Rattle.std.specs.List.{list_all};
ghost use Rattle.cpl_sequence.specs.Remainder.{FitsElement, FitsIn};
ghost use Rattle.cpl_sequence.specs.Sound.{is_loop, is_nested, is_timed};
ghost use Rattle.cpl_sequence.specs.Turns.{StepsElement, StepsLoop, next_frame, turn_of, turned_frames};

use crate::element::Element;
use crate::frame::{Frame, Step, Turn};
use crate::op::Op;
use crate::ops::run_op;
use sqlite_items::Items;

/// The operation at which frames stand in a loop, and the turn to the next one.
#[cycle(stepping)]
pub(crate) fn step_loop(
    step: u64,
    duration: u64,
    body: &[Element],
    time: u64,
    frames: &[Frame],
) -> Step
    requires timed { IsTrue (is_loop (λ element. is_timed element step) step duration body.now) }
    requires nested { IsTrue (list_all (λ element. is_nested element (length frames.now - 2)) body.now) }
    requires early { time + duration ≤ 2 ^ 40 }
    requires fits { FitsIn frames.now step duration body.now }
    ensures { StepsLoop frames.now step duration body.now time result }
{
    let frame = frames[0];
    let inside = step_element(
        &body[frame.place],
        time + frame.round * step,
        step,
        &frames[1..],
    );
    Step {
        op: inside.op,
        turn: turn_of(inside.turn, frame, body.len(), duration / step),
    }
}

/// The operation at which frames stand in an element, and the turn to the next one.
#[cycle(stepping)]
pub(crate) fn step_element(element: &Element, time: u64, step: u64, frames: &[Frame]) -> Step
    requires timed { IsTrue (is_timed element.now step) }
    requires nested { IsTrue (is_nested element.now (length frames.now - 1)) }
    requires some { 0 < step }
    requires early { time + step ≤ 2 ^ 40 }
    requires fits { FitsElement frames.now element.now step }
    ensures { StepsElement frames.now element.now time step result }
{
    let round = frames[0].round;
    match element {
        Element::Link { link } => Step {
            op: Op::Link {
                link: *link,
                at_init: false,
            },
            turn: None,
        },
        Element::Run {
            component,
            phase,
            substep,
        } => Step {
            op: run_op(*component, *phase, *substep, time, step, round),
            turn: turn_of(
                None,
                Frame { place: 0, round },
                1,
                step / substep.unwrap_or(step),
            ),
        },
        Element::Loop {
            step: inner,
            duration,
            body,
        } => step_loop(*inner, *duration, body.as_slice(), time, frames),
    }
}

/// The turn of a loop, by that of the element at which it stands.
fn turn_of(inside: Option<Turn>, frame: Frame, places: usize, rounds: u64) -> Option<Turn>
    requires place { frame.place < 2 ^ 64 - 1 }
    requires round { frame.round < 2 ^ 64 - 1 }
    requires level { IfSome inside (λ turn. turn.level < 2 ^ 64 - 1) }
    ensures { result ≡ turn_of inside frame places rounds }
{
    match inside {
        Some(turn) => Some(Turn {
            level: turn.level + 1,
            frame: turn.frame,
        }),
        None => next_frame(frame, places, rounds).map(|frame| Turn { level: 0, frame }),
    }
}

/// The frame of the next element, else of the next round.
fn next_frame(frame: Frame, places: usize, rounds: u64) -> Option<Frame>
    requires place { frame.place < 2 ^ 64 - 1 }
    requires round { frame.round < 2 ^ 64 - 1 }
    ensures { result ≡ next_frame frame places rounds }
{
    if frame.place + 1 < places {
        Some(Frame {
            place: frame.place + 1,
            round: frame.round,
        })
    } else if frame.round + 1 < rounds {
        Some(Frame {
            place: 0,
            round: frame.round + 1,
        })
    } else {
        None
    }
}

/// Turns frames: so at a level, and to the beginning below it.
pub(crate) fn turn_to(frames: &mut Items<Frame>, level: usize, frame: Frame)
    requires { level < length frames.old }
    ensures { frames.new ≡ turned_frames frames.old level frame }
{
    let count = frames.len();
    frames.set(level, frame);
    for below in level + 1..count {
        frames.set(below, Frame::START);
    }
}
