//! The text of a trace.

ghost use Rattle.std.specs.Prelude.{◌≡◌, All, IfOk};
ghost use Rattle.cpl_trace.specs.Lines.{AreNames, IsPlaced, head_line, trace_text};
ghost use Rattle.cpl_trace.specs.Writers.{IsReady, text_of};

use crate::line::{Numbers, write_columns, write_row};
use crate::names::TraceNames;
use crate::row::TraceRow;
use cpl_base::Memory;
use csv::{Writer, WriterBuilder};
use std::alloc::Global;

/// The rows as a table: the line `op,component,phase,field,stamp,sum`, and a line for each row in their order, with
/// the names of its component, its phase and its field, the stamp in seconds, and the sum in units with six places.
/// Columns are parted by commas, and each line ends in a line feed.
///
/// Each row's numbers are places among the names, and each name has a letter and then letters, digits and `_`, at most
/// 32 bytes.
///
/// Errors: `Memory` where memory runs out.
///
/// Source: this project's own.
pub fn trace_text(alloc: Global, rows: &[TraceRow], names: &TraceNames) -> Result<Vec<u8>, Memory>
    requires names { AreNames names.now }
    requires rows { All (IsPlaced names.now) rows.now }
    ensures { IfOk result (λ text. text.items ≡ trace_text names.now rows.now) }
{
    let mut writer = start(alloc)?;
    let mut numbers = Numbers::new(alloc);
    for row in rows {
        write_row(&mut writer, &mut numbers, names, row)?;
    }
    let text = finish(writer)?;
    Ok(text)
}

/// A writer that has written the first line.
fn start(alloc: Global) -> Result<Writer<Vec<u8>>, Memory>
    ensures ready { IfOk result IsReady }
    ensures text { IfOk result (λ writer. text_of writer ≡ head_line) }
{
    let mut writer = WriterBuilder::new().from_writer(Vec::new(alloc));
    let columns: [&[u8]; 6] = [b"op", b"component", b"phase", b"field", b"stamp", b"sum"];
    write_columns(&mut writer, &columns)?;
    Ok(writer)
}

/// What a writer has written.
fn finish(writer: Writer<Vec<u8>>) -> Result<Vec<u8>, Memory>
    ensures { IfOk result (λ text. text.items ≡ text_of writer) }
{
    match writer.into_inner() {
        Ok(text) => Ok(text),
        Err(_) => Err(Memory),
    }
}
