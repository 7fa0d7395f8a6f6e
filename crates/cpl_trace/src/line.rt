//! A line of the text: the columns of a row, written by a CSV writer that they need no quotes from.

ghost use Rattle.std.specs.Prelude.{◌≡◌, ◌++◌, ◌<◌, ◌^◌, OnOk, decimal, length, map, unsigned_abs};
ghost use Rattle.cpl_base.specs.Numerals.{Writes, value_text};
ghost use Rattle.cpl_trace.specs.Lines.{AreNames, IsPlaced, columns_of, integer_text, line_of, name_at, names_at};
ghost use Rattle.cpl_trace.specs.Writers.{ArePlain, IsReady, text_of};

use crate::names::TraceNames;
use crate::row::TraceRow;
use cpl_base::{Many, Memory, Text, write_number, write_val};
use csv::Writer;
use std::alloc::Global;

/// Room for the numbers of a row, used again for each.
#[derive(Drop)]
pub(crate) struct Numbers {
    op: Vec<u8>,
    stamp: Vec<u8>,
    sum: Vec<u8>,
}

impl Numbers {
    /// No numbers yet.
    pub(crate) fn new(alloc: Global) -> Numbers {
        Numbers {
            op: Vec::new(alloc),
            stamp: Vec::new(alloc),
            sum: Vec::new(alloc),
        }
    }

    /// The texts of a row's numbers.
    pub(crate) fn write(&mut self, row: &TraceRow) -> Result<(), Memory>
        ensures op { OnOk result (self.new.op.items ≡ decimal row.now.op) }
        ensures stamp { OnOk result (self.new.stamp.items ≡ integer_text row.now.stamp) }
        ensures sum { OnOk result (self.new.sum.items ≡ value_text row.now.sum) }
        ensures few { OnOk result (row.now.op < 10 ^ 64) }
        ensures size { OnOk result (unsigned_abs row.now.stamp < 10 ^ 64) }
        ensures writes { OnOk result (Writes (value_text row.now.sum) row.now.sum) }
    {
        self.op.clear();
        write_number(&mut self.op, u128::from(row.op))?;
        self.stamp.clear();
        write_integer(&mut self.stamp, row.stamp)?;
        self.sum.clear();
        write_val(&mut self.sum, row.sum)?;
        Ok(())
    }
}

/// Appends a whole number in decimal, with a minus where it is below 0.
fn write_integer(out: &mut Vec<u8>, number: i64) -> Result<(), Memory>
    ensures { OnOk result (out.new.items ≡ out.old.items ++ integer_text number) }
{
    if number < 0 {
        out.push(b'-')?;
    }
    write_number(out, u128::from(number.unsigned_abs()))?;
    Ok(())
}

/// Writes a line of columns in which no byte calls for quotes.
pub(crate) fn write_columns(writer: &mut Writer<Vec<u8>>, columns: &[&[u8]]) -> Result<(), Memory>
    requires ready { IsReady writer.old }
    requires plain { ArePlain (map (λ column. column.now) columns.now) }
    ensures ready { OnOk result (IsReady writer.new) }
    ensures text { OnOk result (text_of writer.new
        ≡ text_of writer.old ++ line_of (map (λ column. column.now) columns.now)) }
{
    let Ok(()) = writer.write_fields(columns) else {
        return Err(Memory);
    };
    Ok(())
}

/// Writes the line of a row.
pub(crate) fn write_row(
    writer: &mut Writer<Vec<u8>>,
    numbers: &mut Numbers,
    names: &TraceNames,
    row: &TraceRow,
) -> Result<(), Memory>
    requires ready { IsReady writer.old }
    requires names { AreNames names.now }
    requires placed { IsPlaced names.now row.now }
    ensures ready { OnOk result (IsReady writer.new) }
    ensures text { OnOk result (text_of writer.new ≡ text_of writer.old ++ line_of (columns_of names.now row.now)) }
{
    numbers.write(row)?;
    let component = row.component as usize;
    let columns = [
        numbers.op.as_slice(),
        name(&names.components, component),
        name(part(&names.phases, component), row.phase as usize),
        name(part(&names.fields, component), row.field as usize),
        numbers.stamp.as_slice(),
        numbers.sum.as_slice(),
    ];
    write_columns(writer, &columns)?;
    Ok(())
}

/// The name at a place.
fn name(names: &Many<Text>, place: usize) -> &[u8]
    requires { place < length names.now }
    ensures { result.now ≡ name_at names.now place }
{
    names.items()[place].bytes()
}

/// The names of a component's parts.
fn part(names: &Many<Many<Text>>, component: usize) -> &Many<Text>
    requires { component < length names.now }
    ensures { result.now ≡ names_at names.now component }
{
    &names.items()[component]
}
