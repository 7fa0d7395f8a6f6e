//! Reading the rows of a run sequence, one after another.

ghost use Rattle.std.specs.Prelude.{◌≡◌, ◌≤◌, ◌^◌, Ok, IfErr, IfOk, IfSome, OnOk, option_map, unsigned_abs};
ghost use Rattle.cpl_base.specs.Gives.{Gives};
ghost use Rattle.cpl_base.specs.Words.{texts};
ghost use Rattle.cpl_sequence.specs.Bounds.{IsOver};
ghost use Rattle.cpl_sequence.specs.Operations.{operations_of};
ghost use Rattle.cpl_runseq.specs.Asked.{AreFew, AreNames, IsAsked};
ghost use Rattle.cpl_runseq.specs.Causes.{IsCaused};
ghost use Rattle.cpl_runseq.specs.EmptyLoops.{filled_sequence, result_map};
ghost use Rattle.cpl_runseq.specs.FilledReading.{after_form_filled, after_row_filled, after_rows_filled, filled_sequence_of};
ghost use Rattle.cpl_runseq.specs.Reading.{empty_reading};
ghost use Rattle.cpl_runseq.specs.RowForms.{row_form};
ghost use Rattle.cpl_runseq.specs.Views.{reading_view};
ghost use Rattle.cpl_runseq.specs.Whole.{sequence_of};

use crate::elements::{add_link, add_run};
use crate::fault::SeqFault;
use crate::form::Form;
use crate::links::Links;
use crate::loops::{close_loop, open_loop};
use crate::open_loops::OpenLoops;
use crate::row_forms::row_form;
use crate::state::State;
use crate::whole::whole_of;
use crate::words::row_words;
use cpl_config::Row;
use cpl_sequence::{Seq, SeqName};
use std::alloc::Global;

/// Reads the rows of a run sequence over these components, in time linear in the rows. `span` is how
/// long the run lasts, where a stop time is given, `time_step` the run's own step, where it has one, and
/// `room` how long a run may last, all in seconds.
///
/// In a row `->` is a word of its own, even where it touches others. `@` closes the innermost loop;
/// `@S`, `@S:D`, `@*` and `@*:D` open a loop of step `S` (from 1 to 10^9) and duration `D` (from 1 to
/// 10^12), in at most eight loops. A top `*` is the run's own step, a nested one the step around it;
/// a nested loop without a duration lasts the step around it, and the last top loop without one takes
/// the rest of the span. `A -> B` and options is a link, `A` or `A phase` a run of a phase, the first
/// where none is named. A nested loop in which nothing runs goes, and its time passes; top loops all stay.
///
/// Options stand between colons, as `name=value`, without regard to ASCII case of names and methods:
/// `remapMethod` is `redist` or `weights`, `weightFile` names the file of weights, `srcTermProcessing` is
/// a number. Of an option given twice the last counts, and others are without effect. A later line of a
/// connector has no options, or the same.
///
/// Room is from 1 to 2^40, the span from 1 and below the room, the run's step and substeps from 1 to
/// 10^9; there are at most 32 names, each with 1 to 16 phases.
///
/// Errors: rows are judged in their order, each first by its form: `BadElement` where it has none, `BadStep`
/// where what stands behind `@` is no step or duration in range. Then, where a loop ends, `LoopStray`; where
/// one begins, `LoopTooDeep`, `StepUnset`, `BadStep` where it outlasts the step around it, `StepUneven`; of a
/// run `OutsideLoop`, `ComponentUnknown`, `PhaseUnknown`, `SubstepUneven`; of a link `OutsideLoop`,
/// `ComponentUnknown`, `SelfLink`, `BadElement` where an option word has no colon in front,
/// `MethodUnsupported`, `BadElement` where `srcTermProcessing` is no number or `weights` lacks its file, and
/// `OptionsDiffer`. Then the whole is judged: `LoopUnclosed`, `DurationMissing`, `SpanMismatch`,
/// `StepUneven` of the loop that takes the rest, `SpanTooLong`. `Memory` where memory runs out.
///
/// Source: NUOPC Layer Reference, the run sequence; ranges and refusals are this project's own.
pub fn read_sequence(
    alloc: Global,
    rows: &[Row],
    names: &[SeqName],
    span: Option<i64>,
    time_step: Option<i64>,
    room: i64,
) -> Result<Seq, SeqFault>
    requires { IsAsked names.now span time_step room }
    ensures answer { Gives SeqFault.Memory (λ sequence. sequence) result (filled_sequence names.now span time_step room rows.now) }
    // No operation goes with the loops that go.
    ensures operations { IfOk result (λ sequence. result_map operations_of (sequence_of names.now span time_step room rows.now) ≡ Ok (operations_of sequence)) }
    ensures over { IfOk result (IsOver names.now) }
{
    let span = magnitude(span);
    let time_step = magnitude(time_step);
    let room = size(room);
    let sequence = read_filled(alloc, rows, names, span, time_step, room)?;
    Ok(sequence)
}

/// How great a number is, where it is given.
fn magnitude(number: Option<i64>) -> Option<u64>
    ensures { result ≡ option_map unsigned_abs number }
{
    match number {
        None => None,
        Some(number) => Some(number.unsigned_abs()),
    }
}

/// How great a number is.
fn size(number: i64) -> u64
    ensures { result ≡ unsigned_abs number }
{
    number.unsigned_abs()
}

/// Reads all rows and judges the whole.
fn read_filled(
    alloc: Global,
    rows: &[Row],
    names: &[SeqName],
    span: Option<u64>,
    time_step: Option<u64>,
    room: u64,
) -> Result<Seq, SeqFault>
    requires names { AreNames names.now }
    requires span { IfSome span (λ s. s ≤ 2 ^ 40) }
    requires room { room ≤ 2 ^ 40 }
    ensures ok { IfOk result (λ sequence. filled_sequence_of names.now span time_step room rows.now ≡ Ok sequence) }
    ensures over { IfOk result (IsOver names.now) }
    ensures fault { IfErr result (IsCaused (filled_sequence_of names.now span time_step room rows.now)) }
{
    let state = read_rows(alloc, rows, names, time_step)?;
    let sequence = whole_of(alloc, state, span, room)?;
    Ok(sequence)
}

/// Reads all rows.
fn read_rows(
    alloc: Global,
    rows: &[Row],
    names: &[SeqName],
    time_step: Option<u64>,
) -> Result<State, SeqFault>
    requires { AreFew names.now }
    ensures ok { IfOk result (λ state. after_rows_filled time_step names.now empty_reading rows.now ≡ Ok (reading_view state)) }
    ensures fault { IfErr result (IsCaused (after_rows_filled time_step names.now empty_reading rows.now)) }
{
    let mut state = State {
        links: Links::new(alloc)?,
        open: OpenLoops::new(alloc),
        loops: Vec::new(alloc),
    };
    for row in rows {
        read_row(alloc, &mut state, names, time_step, row)?;
    }
    Ok(state)
}

/// Reads a row.
fn read_row(
    alloc: Global,
    state: &mut State,
    names: &[SeqName],
    time_step: Option<u64>,
    row: &Row,
) -> Result<(), SeqFault>
    requires { AreFew names.now }
    ensures ok { OnOk result (after_row_filled time_step names.now (reading_view state.old) row.now ≡ Ok (reading_view state.new)) }
    ensures fault { IfErr result (IsCaused (after_row_filled time_step names.now (reading_view state.old) row.now)) }
{
    let words = row_words(alloc, row)?;
    read_words(alloc, state, names, time_step, row.line, words.as_slice())
}

/// Reads a row of these words.
fn read_words(
    alloc: Global,
    state: &mut State,
    names: &[SeqName],
    time_step: Option<u64>,
    line: u32,
    words: &[&[u8]],
) -> Result<(), SeqFault>
    requires { AreFew names.now }
    ensures ok { OnOk result (after_form_filled time_step names.now (reading_view state.old) line (row_form (texts words.now)) ≡ Ok (reading_view state.new)) }
    ensures fault { IfErr result (IsCaused (after_form_filled time_step names.now (reading_view state.old) line (row_form (texts words.now)))) }
{
    match row_form(words) {
        Form::Close => close_loop(state, line),
        Form::Opening { step, given } => open_loop(alloc, state, time_step, line, step, given),
        Form::BadStep => Err(SeqFault::BadStep { line }),
        Form::Link { src, dst, options } => {
            add_link(alloc, state, names, line, src, dst, options)
        }
        Form::Run { component, phase } => add_run(state, names, line, component, phase),
        Form::BadElement => Err(SeqFault::BadElement { line }),
    }
}
