//! A file of weights: its records are read, sorted by their cells, and kept row by row.

ghost use Rattle.std.specs.Prelude.{◌≡◌, IfOk, IfErr, length, map};
ghost use Rattle.cpl_base.specs.Gives.{Gives};
ghost use Rattle.csv.specs.Records.{fields_of};
ghost use Rattle.cpl_smm.specs.Files.{records_of, weights_of};
ghost use Rattle.cpl_smm.specs.Kept.{AreSorted, IsReading, ReadsOn, dst_of, entry_of, judged_of, kept_from, numbered, records_left, sorted_table, table_or};
ghost use Rattle.cpl_smm.specs.declared.fault.WeightFault.{WeightFault};

use crate::columns::{Columns, are_ascending, refilled};
use crate::entries::{least_repeat, numbered, sort_factors};
use crate::fault::WeightFault;
use crate::records::{MOST_RECORDS, kept_factor};
use crate::weights::Weights;
use csv::{ByteRecord, Reader, ReaderBuilder};
use std::alloc::Global;

/// The weights of a CSV file, over so many source and destination cells.
///
/// A record is `src,dst,weight`: two number words and a weight, which is an optional `-`, digits, and optionally a
/// point and one to nine digits, from -1000 to 1000. Cells are counted from 1. There is no header, and no blank is
/// dropped. Records are counted from 1 as the reader of CSV gives them: a byte order mark at the front is skipped,
/// quotes are understood, CR, LF and CR LF end a record, and empty lines give none.
///
/// Errors: that of the first record that has one, judged in this order: `TooManyWeights` exactly where its number is
/// above 2^22; `BadRecord` exactly where it hasn't just three fields of these forms; `IndexRange` exactly where a
/// cell is 0 or above the number of cells; `WeightRange` exactly where the weight is out of range; `PairTwice`
/// exactly where an earlier record has its two cells. `Memory`, also where the reader of CSV fails, which it does
/// over bytes in memory for want of memory alone.
///
/// Source: ESMF Reference Manual, sparse matrix multiplication by factors with source and destination indices; the
/// form of the file is this project's own.
pub fn read_weights(
    alloc: Global,
    bytes: &[u8],
    src_cells: u32,
    dst_cells: u32,
) -> Result<Weights, WeightFault>
    ensures answer { Gives WeightFault.Memory (λ weights. weights) result (weights_of src_cells dst_cells bytes.now) }
{
    let reading = read_factors(alloc, bytes, src_cells, dst_cells)?;
    let Reading { columns, fault } = reading;
    if are_ascending(columns.dsts.as_slice(), columns.entries.as_slice()) {
        return weights_or(alloc, src_cells, dst_cells, columns, fault);
    }
    let mut factors = numbered(alloc, columns.dsts.as_slice(), columns.entries.as_slice())?;
    sort_factors(&mut factors)?;
    if let Some(n) = least_repeat(factors.as_slice()) {
        return Err(WeightFault::PairTwice { n });
    }
    let sorted = refilled(columns, factors.as_slice())?;
    weights_or(alloc, src_cells, dst_cells, sorted, fault)
}

/// A fault, or where there is none the weights of factors that are sorted by their cells.
fn weights_or(
    alloc: Global,
    src_cells: u32,
    dst_cells: u32,
    columns: Columns,
    fault: Option<WeightFault>,
) -> Result<Weights, WeightFault>
    requires sizes { length columns.dsts.items ≡ length columns.entries.items }
    requires sorted { AreSorted src_cells (numbered 1 columns.dsts.items columns.entries.items) }
    ensures { Gives WeightFault.Memory (λ weights. weights) result
        (table_or fault (sorted_table src_cells dst_cells (numbered 1 columns.dsts.items columns.entries.items))) }
{
    match fault {
        Some(fault) => Err(fault),
        None => {
            let weights = Weights::of(alloc, src_cells, dst_cells, columns)?;
            Ok(weights)
        }
    }
}

/// The factors of the records up to the first that is faulty by itself, and its fault.
#[derive(Drop)]
struct Reading {
    columns: Columns,
    fault: Option<WeightFault>,
}

/// Reads records up to the first that is faulty by itself.
fn read_factors(
    alloc: Global,
    bytes: &[u8],
    src_cells: u32,
    dst_cells: u32,
) -> Result<Reading, WeightFault>
    ensures dsts { IfOk result (λ reading. reading.columns.dsts.items ≡ map dst_of (kept_from 1 (judged_of src_cells dst_cells bytes.now).factors)) }
    ensures entries { IfOk result (λ reading. reading.columns.entries.items ≡ map entry_of (kept_from 1 (judged_of src_cells dst_cells bytes.now).factors)) }
    ensures fault { IfOk result (λ reading. reading.fault ≡ (judged_of src_cells dst_cells bytes.now).fault) }
    ensures err { IfErr result (λ fault. fault ≡ WeightFault.Memory) }
{
    let mut reader = reader(alloc, bytes);
    let mut record = ByteRecord::new(alloc);
    let mut dsts = Vec::new(alloc);
    let mut entries = Vec::new(alloc);
    for number in 1..MOST_RECORDS + 2 {
        if !reads_on(&mut reader, &mut record)? {
            return Ok(read(dsts, entries, None));
        }
        match kept_factor(src_cells, dst_cells, number, &record) {
            Ok(factor) => {
                dsts.push(factor.dst)?;
                entries.push(factor.entry())?;
            }
            Err(fault) => return Ok(read(dsts, entries, Some(fault))),
        }
    }
    Ok(read(dsts, entries, None))
}

/// What was read.
fn read(dsts: Vec<u32>, entries: Vec<(u32, i64)>, fault: Option<WeightFault>) -> Reading
    ensures dsts { result.columns.dsts ≡ dsts }
    ensures entries { result.columns.entries ≡ entries }
    ensures fault { result.fault ≡ fault }
{
    Reading {
        columns: Columns { dsts, entries },
        fault,
    }
}

/// A reader of all records, of whatever length.
fn reader(alloc: Global, bytes: &[u8]) -> Reader<&[u8]>
    ensures reading { IsReading result }
    ensures left { records_left result ≡ records_of bytes.now }
{
    ReaderBuilder::new()
        .has_headers(false)
        .flexible(true)
        .from_reader(alloc, bytes)
}

/// Reads the next record, if there is one. Over bytes in memory the reader fails for want of memory alone.
fn reads_on(reader: &mut Reader<&[u8]>, csv_record: &mut ByteRecord) -> Result<bool, WeightFault>
    requires { IsReading reader.old }
    ensures ok { IfOk result (ReadsOn reader.old reader.new (fields_of csv_record.new)) }
    ensures err { IfErr result (λ fault. fault ≡ WeightFault.Memory) }
{
    let Ok(found) = reader.read_byte_record(csv_record) else {
        return Err(WeightFault::Memory);
    };
    Ok(found)
}
