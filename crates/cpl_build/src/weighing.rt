//! The weights of connectors, from further files.

ghost use Rattle.std.specs.Prelude.{◌≡◌, ◌≤◌, ◌+◌, ◌-◌, ◌∷◌, [], length, IfOk};
ghost use Rattle.std.specs.List.{All, zip};
ghost use Rattle.cpl_base.specs.Gives.{Gives};
ghost use Rattle.cpl_build.specs.Causes.{Follows, request, visit};
ghost use Rattle.cpl_build.specs.WeightFiles.{IsWeighed, fault_record, fault_within, file_asked, file_bytes, files_asked_with, most_records, record_count, weights_for, weights_from, weights_with, weights_within};
ghost use Rattle.cpl_script.specs.Matched.{is_redist};
ghost use Rattle.cpl_script.specs.Sound.{IsBetween, cells_at};
ghost use Rattle.cpl_smm.specs.Files.{weights_of};
ghost use Rattle.cpl_smm.specs.declared.fault.WeightFault.{WeightFault};

use crate::fault::{BuildFault, Rejection};
use crate::matched::is_redist;
use crate::refusals::{too_long, weight_refusal};
use cpl_base::{LoadFault, Shelf, Text};
use cpl_comp::Comp;
use cpl_sequence::LinkLine;
use cpl_smm::{WeightFault, Weights, read_weights};
use std::alloc::Global;
use std::str::from_utf8;

/// A file of weights has at most so many bytes: 64 MiB.
const MOST_BYTES: usize = 67_108_864;

/// All files of weights together have at most so many records.
const MOST_RECORDS: u64 = 16_777_216;

/// The weights of connectors. A file is dropped when it is read.
pub(crate) fn weights_in<H: Shelf>(
    alloc: Global,
    shelf: &mut H,
    comps: &[Comp],
    lines: &[LinkLine],
) -> Result<Vec<Option<Weights>>, BuildFault>
    ensures told { H.files shelf.new ≡ H.files shelf.old }
    ensures answer { Follows (visit (H.files shelf.old) (H.faults shelf.old) (H.faults shelf.new))
        (request (λ files. weights_with files comps.now [] lines.now) (λ files. files_asked_with files comps.now [] lines.now))
        (λ weights. weights.items) result }
    ensures count { IfOk result (λ weights. length weights.items ≡ length lines.now) }
    ensures each { IfOk result (λ weights. All (IsWeighed comps.now) (zip lines.now weights.items)) }
{
    let mut weights = Vec::with_capacity(alloc, lines.len())?;
    let mut spent = 0;
    for line in lines {
        let given = weights_for(alloc, shelf, comps, spent, line)?;
        spent += record_count(&given);
        weights.push(given)?;
    }
    Ok(weights)
}

/// How many records these weights have.
fn record_count(given: &Option<Weights>) -> u64
    ensures { result ≡ record_count given.now }
{
    match given {
        Some(weights) => weights.records(),
        None => 0,
    }
}

/// The weights of a connector, behind so many records of other files.
fn weights_for<H: Shelf>(
    alloc: Global,
    shelf: &mut H,
    comps: &[Comp],
    spent: u64,
    line: &LinkLine,
) -> Result<Option<Weights>, BuildFault>
    requires { spent ≤ most_records }
    ensures told { H.files shelf.new ≡ H.files shelf.old }
    ensures answer { Follows (visit (H.files shelf.old) (H.faults shelf.old) (H.faults shelf.new))
        (request (λ files. weights_for files comps.now spent line.now) (λ files. file_asked line.now))
        (λ given. given) result }
    ensures within { IfOk result (λ given. spent + record_count given ≤ most_records) }
    ensures weighed { IfOk result (λ given. IsWeighed comps.now (line.now, given)) }
{
    if is_redist(line.method) {
        return Ok(None);
    }
    let bytes = file_bytes(alloc, shelf, line.file.bytes(), MOST_BYTES)?;
    let weights = weights_from(alloc, comps, spent, line, bytes.as_slice())?;
    Ok(Some(weights))
}

/// The bytes of a file of at most so many.
pub(crate) fn file_bytes<H: Shelf>(
    alloc: Global,
    shelf: &mut H,
    name: &[u8],
    most: usize,
) -> Result<Vec<u8>, BuildFault>
    ensures told { H.files shelf.new ≡ H.files shelf.old }
    ensures answer { Follows (visit (H.files shelf.old) (H.faults shelf.old) (H.faults shelf.new))
        (request (λ files. file_bytes files name.now most) (λ files. name.now ∷ []))
        (λ bytes. bytes.items) result }
    ensures short { IfOk result (λ bytes. length bytes.items ≤ most) }
{
    // The words of a file are ASCII, so that this want of memory never comes.
    let Ok(text) = from_utf8(name) else {
        return Err(BuildFault::Memory);
    };
    match shelf.load(alloc, text, most) {
        Ok(bytes) => Ok(bytes),
        Err(LoadFault::Failed) => Err(BuildFault::ReadFault {
            name: Text::of(alloc, name)?,
        }),
        Err(LoadFault::TooLong) => Err(BuildFault::from(too_long(alloc, name))),
        Err(LoadFault::Memory) => Err(BuildFault::Memory),
    }
}

/// The weights that a file gives a connector, behind so many records of other files.
fn weights_from(
    alloc: Global,
    comps: &[Comp],
    spent: u64,
    line: &LinkLine,
    bytes: &[u8],
) -> Result<Weights, Rejection>
    requires { spent ≤ most_records }
    ensures answer { Gives Rejection.Memory (λ weights. weights) result (weights_from comps.now spent line.now bytes.now) }
    ensures within { IfOk result (λ weights. spent + weights.records ≤ most_records) }
    ensures between { IfOk result (IsBetween comps.now line.now.src line.now.dst) }
{
    let src = cells_at(comps, line.src);
    let dst = cells_at(comps, line.dst);
    match read_within(alloc, spent, src, dst, bytes) {
        Ok(weights) => Ok(weights),
        Err(fault) => Err(weight_refusal(alloc, line.file.bytes(), fault)),
    }
}

/// The weights of a file, behind so many records of other files.
fn read_within(
    alloc: Global,
    spent: u64,
    src: u32,
    dst: u32,
    bytes: &[u8],
) -> Result<Weights, WeightFault>
    requires { spent ≤ most_records }
    ensures answer { Gives WeightFault.Memory (λ weights. weights) result (weights_within spent (weights_of src dst bytes.now)) }
    ensures within { IfOk result (λ weights. spent + weights.records ≤ most_records) }
    ensures cells { IfOk result (λ weights. (weights.src_cells ≡ src) × (length weights.rows ≡ dst)) }
{
    let room = MOST_RECORDS - spent;
    match read_weights(alloc, bytes, src, dst) {
        Ok(weights) if weights.records() <= room => Ok(weights),
        Ok(_) => Err(WeightFault::TooManyWeights { n: room + 1 }),
        Err(fault) => Err(fault_within(room, fault)),
    }
}

/// A fault of a record within the room for records, or that of the record which passes it.
fn fault_within(room: u64, fault: WeightFault) -> WeightFault
    requires { room ≤ most_records }
    ensures { result ≡ fault_within (most_records - room) fault }
{
    match fault_record(fault) {
        Some(n) if n > room => WeightFault::TooManyWeights { n: room + 1 },
        _ => fault,
    }
}

/// The record of a fault.
fn fault_record(fault: WeightFault) -> Option<u64>
    ensures { result ≡ fault_record fault }
{
    match fault {
        WeightFault::BadRecord { n }
        | WeightFault::IndexRange { n }
        | WeightFault::WeightRange { n }
        | WeightFault::PairTwice { n }
        | WeightFault::TooManyWeights { n } => Some(n),
        WeightFault::Memory => None,
    }
}

/// How many cells the component of a place has.
fn cells_at(comps: &[Comp], component: u8) -> u32
    ensures { result ≡ cells_at comps.now component }
{
    match comps.get(usize::from(component)) {
        Some(comp) => comp.decomp.grid().cells(),
        None => 0,
    }
}
