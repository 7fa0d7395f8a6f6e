//! The answers of a native entry over a block.

ghost use Rattle.std.specs.Prelude.{◌≡◌, ◌+◌, All, length, map};
ghost use Rattle.std.specs.List.{range_with_len};
ghost use Rattle.cpl_base.specs.Numbers.{IsValue};
ghost use Rattle.cpl_block.specs.Frames.{IsFrame, places_in, span_of};
ghost use Rattle.cpl_comp.specs.Readings.{entry_answer};
ghost use Rattle.cpl_entry.specs.Books.{entries_of};
ghost use Rattle.cpl_sweep.specs.Places.{IsPlace, input_at, inputs_at};
ghost use Rattle.cpl_rule.specs.Assigned.{TakesInputs, answers_of};
ghost use Rattle.cpl_rule.specs.Swept.{IsSwept};

use cpl_block::{Frame, frame_laws};
use cpl_entry::EntryBook;
use cpl_field::Field;
use cpl_sweep::Place;

/// Writes the answers of an entry at all cells of a block.
pub(crate) fn call_block(
    frame: &Frame,
    book: &EntryBook,
    entry: u16,
    places: &[Place],
    fields: &[Field],
    inputs: &mut [i64],
    out: &mut [i64],
)
    requires frame { IsFrame frame.now }
    requires entry { TakesInputs (entries_of book.now) entry (length places.now) }
    requires places { All (IsPlace fields.now (span_of frame.now)) places.now }
    requires fields { All (All IsValue) fields.now }
    requires inputs { length inputs.old ≡ length places.now }
    requires out { length out.old ≡ places_in frame.now }
    requires out_values { All IsValue out.old }
    ensures { IsSwept frame.now (λ cell. entry_answer (answers_of (entries_of book.now)) entry (inputs_at places.now fields.now cell)) out.new }
{
    frame_laws(frame);
    let first = frame.first(0, 0) as usize;
    let span = frame.span() as usize;
    call_run(
        book,
        entry,
        places,
        fields,
        inputs,
        &mut out[first..first + span],
    );
}

/// Writes the answers of an entry at a run of cells.
fn call_run(
    book: &EntryBook,
    entry: u16,
    places: &[Place],
    fields: &[Field],
    inputs: &mut [i64],
    these: &mut [i64],
)
    requires entry { TakesInputs (entries_of book.now) entry (length places.now) }
    requires places { All (IsPlace fields.now (length these.old)) places.now }
    requires fields { All (All IsValue) fields.now }
    requires inputs { length inputs.old ≡ length places.now }
    ensures values { these.new ≡ map (λ cell. entry_answer (answers_of (entries_of book.now)) entry (inputs_at places.now fields.now cell)) (range_with_len 0 (length these.old)) }
    ensures within { All IsValue these.new }
{
    for cell in 0..these.len() {
        gather(places, fields, cell, inputs);
        these[cell] = call(book, entry, inputs);
    }
}

/// The answer of an entry.
fn call(book: &EntryBook, entry: u16, inputs: &[i64]) -> i64
    requires entry { TakesInputs (entries_of book.now) entry (length inputs.now) }
    requires inputs { All IsValue inputs.now }
    ensures value { result ≡ entry_answer (answers_of (entries_of book.now)) entry inputs.now }
    ensures within { IsValue result }
{
    book.call(entry, inputs)
}

/// Writes the inputs at a cell of a run.
fn gather(places: &[Place], fields: &[Field], cell: usize, inputs: &mut [i64])
    requires places { All (IsPlace fields.now (cell + 1)) places.now }
    requires fields { All (All IsValue) fields.now }
    requires inputs { length inputs.old ≡ length places.now }
    ensures values { inputs.new ≡ inputs_at places.now fields.now cell }
    ensures within { All IsValue inputs.new }
{
    for k in 0..places.len() {
        inputs[k] = input(&places[k], fields, cell);
    }
}

/// An input at a cell of a run.
#[inline(always)]
fn input(place: &Place, fields: &[Field], cell: usize) -> i64
    requires place { IsPlace fields.now (cell + 1) place.now }
    requires fields { All (All IsValue) fields.now }
    ensures value { result ≡ input_at fields.now cell place.now }
    ensures within { IsValue result }
{
    match place {
        Place::Same(value) => *value,
        Place::From { field, first } => fields[*field as usize].values()[*first as usize + cell],
    }
}
