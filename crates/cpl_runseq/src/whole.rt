//! The rules on the whole, once all rows are read, and the sequence.

ghost use Rattle.std.specs.Prelude.{◌≡◌, ◌-◌, ◌<◌, ◌≤◌, ◌^◌, Ok, IfErr, IfOk, IfSome, length};
ghost use Rattle.cpl_sequence.specs.Sound.{IsSound};
ghost use Rattle.cpl_runseq.specs.Causes.{IsCaused};
ghost use Rattle.cpl_runseq.specs.Reading.{innermost_loop};
ghost use Rattle.cpl_runseq.specs.ReadingBounds.{IsReading, full_length};
ghost use Rattle.cpl_runseq.specs.Views.{reading_view};
ghost use Rattle.cpl_runseq.specs.Whole.{closed_check, durations_check, given_span, has_rest, makes_up, own_span, rest_check, span_of, top_loops, total_duration, whole_of};

use crate::fault::SeqFault;
use crate::loops::divides;
use crate::open_loops::OpenLoops;
use crate::read_loop::ReadLoop;
use crate::state::State;
use cpl_base::Memory;
use cpl_sequence::{Seq, TopLoop};
use std::alloc::Global;

/// The sequence, once all rows are read.
pub(crate) fn whole_of(
    alloc: Global,
    state: State,
    span: Option<u64>,
    room: u64,
) -> Result<Seq, SeqFault>
    requires fits { IsReading (reading_view state) }
    requires span { IfSome span (λ s. s ≤ 2 ^ 40) }
    requires room { room ≤ 2 ^ 40 }
    ensures ok { IfOk result (λ sequence. whole_of span room (reading_view state) ≡ Ok sequence) }
    ensures few { IfOk result (λ sequence. length sequence.links < 2 ^ 16) }
    ensures sound { IfOk result IsSound }
    ensures fault { IfErr result (IsCaused (whole_of span room (reading_view state))) }
{
    closed_check(&state.open)?;
    durations_check(span, state.loops.as_slice())?;
    let length = span_of(span, room, state.loops.as_slice())?;
    let rest = rest_of(length, state.loops.as_slice());
    let State { links, loops, .. } = state;
    let loops = top_loops(alloc, loops, rest)?;
    let sequence = Seq::new(alloc, links.into_lines(), loops, length as i64)?;
    Ok(sequence)
}

/// No loop is open.
fn closed_check(loops: &OpenLoops) -> Result<(), SeqFault>
    ensures { result ≡ closed_check (innermost_loop loops.now) }
{
    match loops.innermost_loop() {
        None => Ok(()),
        Some(l) => Err(SeqFault::LoopUnclosed { line: l.line }),
    }
}

/// Every top loop has a duration, but for the last one where the run's span is given.
fn durations_check(span: Option<u64>, loops: &[ReadLoop]) -> Result<(), SeqFault>
    ensures { result ≡ durations_check span loops.now }
{
    for (i, l) in loops.iter().enumerate() {
        let is_last = i == loops.len() - 1;
        if l.given.is_none() && !(span.is_some() && is_last) {
            return Err(SeqFault::DurationMissing { line: l.line });
        }
    }
    Ok(())
}

/// How long the run lasts.
fn span_of(span: Option<u64>, room: u64, loops: &[ReadLoop]) -> Result<u64, SeqFault>
    requires { IfSome span (λ s. s ≤ 2 ^ 40) }
    ensures { result ≡ span_of span room loops.now }
{
    match span {
        Some(span) => given_span(span, loops),
        None => own_span(room, loops),
    }
}

/// How long the run lasts where that is given.
fn given_span(span: u64, loops: &[ReadLoop]) -> Result<u64, SeqFault>
    requires { span ≤ 2 ^ 40 }
    ensures { result ≡ given_span span loops.now }
{
    if !makes_up(span, loops) {
        return Err(SeqFault::SpanMismatch {
            have: total(loops),
            want: span as i64,
        });
    }
    rest_check(rest_of(span, loops), loops)?;
    Ok(span)
}

/// How long the run lasts where that isn't given: as long as its loops.
fn own_span(room: u64, loops: &[ReadLoop]) -> Result<u64, SeqFault>
    ensures { result ≡ own_span room loops.now }
{
    let span = total(loops);
    if 0 < span && span < u128::from(room) {
        Ok(span as u64)
    } else {
        Err(SeqFault::SpanTooLong { span })
    }
}

/// The durations make up the span, or leave something of it where a loop takes the rest.
fn makes_up(span: u64, loops: &[ReadLoop]) -> bool
    ensures { result ≡ makes_up span loops.now }
{
    if has_rest(loops) {
        total(loops) < u128::from(span)
    } else {
        total(loops) == u128::from(span)
    }
}

/// Whether a loop takes the rest of the span.
fn has_rest(loops: &[ReadLoop]) -> bool
    ensures { result ≡ has_rest loops.now }
{
    loops.iter().any(|l| l.given.is_none())
}

/// The step of a loop that takes the rest divides it.
fn rest_check(rest: u64, loops: &[ReadLoop]) -> Result<(), SeqFault>
    ensures { result ≡ rest_check rest loops.now }
{
    for l in loops {
        if l.given.is_none() && !divides(l.step, rest) {
            return Err(SeqFault::StepUneven { line: l.line });
        }
    }
    Ok(())
}

/// What is left of a span behind the loops with a duration.
fn rest_of(span: u64, loops: &[ReadLoop]) -> u64
    ensures { result ≡ span - total_duration loops.now }
{
    u128::from(span).saturating_sub(total(loops)) as u64
}

/// How long the loops with a duration last together.
fn total(loops: &[ReadLoop]) -> u128
    ensures { result ≡ total_duration loops.now }
{
    let mut sum = 0;
    for l in loops {
        sum += u128::from(l.given.unwrap_or(0));
    }
    sum
}

/// The top loops, one behind another in time from 0, where a loop without a duration takes the rest.
fn top_loops(alloc: Global, loops: Vec<ReadLoop>, rest: u64) -> Result<Vec<TopLoop>, Memory>
    requires { full_length rest loops.items < 2 ^ 64 }
    ensures { IfOk result (λ tops. tops.items ≡ top_loops 0 rest loops.items) }
{
    let mut tops = Vec::new(alloc);
    let mut begin = 0;
    for read in loops {
        let ReadLoop {
            step,
            given,
            body,
            ..
        } = read;
        let duration = given.unwrap_or(rest);
        tops.push(TopLoop {
            begin,
            step,
            duration,
            body,
        })?;
        begin += duration;
    }
    Ok(tops)
}
