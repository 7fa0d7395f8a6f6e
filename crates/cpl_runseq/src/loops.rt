//! Loops that begin and end, row by row.

ghost use Rattle.std.specs.Prelude.{◌≡◌, Ok, IfErr, OnOk, option_copied};
ghost use Rattle.cpl_runseq.specs.Causes.{IsCaused};
ghost use Rattle.cpl_runseq.specs.FilledReading.{after_close_filled, join_if_any};
ghost use Rattle.cpl_runseq.specs.Reading.{after_opening, divides, divides_given, loop_duration, loop_in, nested_loop, top_loop, with_body};
ghost use Rattle.cpl_runseq.specs.Views.{reading_view};

use crate::fault::SeqFault;
use crate::read_loop::ReadLoop;
use crate::state::State;
use cpl_base::Memory;
use cpl_sequence::Element;
use std::alloc::Global;

/// At most so many loops are open at once.
const MOST_OPEN: usize = 8;

/// A loop begins, at most the eighth in one another.
pub(crate) fn open_loop(
    alloc: Global,
    state: &mut State,
    time_step: Option<u64>,
    line: u32,
    step: Option<u64>,
    given: Option<u64>,
) -> Result<(), SeqFault>
    ensures ok { OnOk result (after_opening (reading_view state.old) time_step line step given ≡ Ok (reading_view state.new)) }
    ensures fault { IfErr result (IsCaused (after_opening (reading_view state.old) time_step line step given)) }
{
    if state.open.len() >= MOST_OPEN {
        return Err(SeqFault::LoopTooDeep { line });
    }
    let l = loop_in(
        alloc,
        state.open.innermost_loop(),
        time_step,
        line,
        step,
        given,
    )?;
    state.open.push(l)?;
    Ok(())
}

/// A loop that begins in the innermost, if there is one.
fn loop_in(
    alloc: Global,
    around: Option<&ReadLoop>,
    time_step: Option<u64>,
    line: u32,
    step: Option<u64>,
    given: Option<u64>,
) -> Result<ReadLoop, SeqFault>
    ensures { result ≡ loop_in (option_copied around.entry) time_step line step given }
{
    match around {
        None => top_loop(alloc, line, step.or(time_step), given),
        Some(around) => nested_loop(alloc, around, line, step, given),
    }
}

/// A loop that begins in none.
fn top_loop(
    alloc: Global,
    line: u32,
    step: Option<u64>,
    given: Option<u64>,
) -> Result<ReadLoop, SeqFault>
    ensures { result ≡ top_loop line step given }
{
    let step = step.ok_or(SeqFault::StepUnset { line })?;
    if !divides_given(step, given) {
        return Err(SeqFault::StepUneven { line });
    }
    Ok(ReadLoop::empty(alloc, line, step, given))
}

/// A loop that begins in another.
fn nested_loop(
    alloc: Global,
    around: &ReadLoop,
    line: u32,
    step: Option<u64>,
    given: Option<u64>,
) -> Result<ReadLoop, SeqFault>
    ensures { result ≡ nested_loop around.now line step given }
{
    let step = step.unwrap_or(around.step);
    let duration = loop_duration(given, around);
    if duration > around.step {
        return Err(SeqFault::BadStep { line });
    }
    if !divides(step, duration) {
        return Err(SeqFault::StepUneven { line });
    }
    Ok(ReadLoop::empty(alloc, line, step, given))
}

/// The innermost loop ends.
pub(crate) fn close_loop(state: &mut State, line: u32) -> Result<(), SeqFault>
    ensures ok { OnOk result (after_close_filled (reading_view state.old) line state.old.open ≡ Ok (reading_view state.new)) }
    ensures fault { IfErr result (IsCaused (after_close_filled (reading_view state.old) line state.old.open)) }
{
    let Some(inner) = state.open.pop() else {
        return Err(SeqFault::LoopStray { line });
    };
    let Some(mut around) = state.open.pop() else {
        state.loops.push(inner)?;
        return Ok(());
    };
    join(&mut around, inner)?;
    state.open.push(around)?;
    Ok(())
}

/// A nested loop joins what stands around it, where something stands in it.
fn join(around: &mut ReadLoop, inner: ReadLoop) -> Result<(), Memory>
    ensures { OnOk result (around.new ≡ with_body around.old (join_if_any around.old.body inner.step (loop_duration inner.given around.old) inner.body)) }
{
    let duration = loop_duration(inner.given, around);
    let ReadLoop { step, body, .. } = inner;
    if !body.is_empty() {
        around.body.push(Element::Loop {
            step,
            duration,
            body,
        })?;
    }
    Ok(())
}

/// How long a nested loop lasts: as its row says, else the step around it.
fn loop_duration(given: Option<u64>, around: &ReadLoop) -> u64
    ensures { result ≡ loop_duration given around.now }
{
    given.unwrap_or(around.step)
}

/// Whether a step divides a time, where it is given.
fn divides_given(step: u64, given: Option<u64>) -> bool
    ensures { result ≡ divides_given step given }
{
    match given {
        None => true,
        Some(time) => divides(step, time),
    }
}

/// Whether a step divides a time, where both are from 1.
pub(crate) fn divides(step: u64, time: u64) -> bool
    ensures { result ≡ divides step time }
{
    0 < step && 0 < time && time % step == 0
}
