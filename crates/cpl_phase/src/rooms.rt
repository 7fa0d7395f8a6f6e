//! What a component on a block works in, and what it keeps sums for.

ghost use Rattle.std.specs.Prelude.{◌≡◌, ◌≤◌, ◌^◌, ◌==◌, All, IfOk, length, pos, replicate};
ghost use Rattle.std.specs.List.{list_any};
ghost use Rattle.cpl_block.specs.Frames.{IsFrame};
ghost use Rattle.cpl_comp.specs.Turns.{is_among};
ghost use Rattle.cpl_rule.specs.Demands.{CanBeMet};
ghost use Rattle.cpl_phase.specs.Opened.{first_accums, sums_held};
ghost use Rattle.cpl_phase.specs.Rooms.{IsSpareFor, cell_count, further_fields, is_kept_by, keeps_for};
ghost use Rattle.cpl_phase.specs.Starts.{places_started};

use crate::spare::Spare;
use cpl_base::{Many, Memory};
use cpl_block::Frame;
use cpl_comp::{Comp, Phase, SetRow};
use cpl_field::Field;
use cpl_grid::part_laws;
use cpl_mediator::Accum;
use cpl_rule::{Demand, room_of};
use std::alloc::Global;

/// How many cells a block has.
pub(crate) fn cell_count(frame: &Frame) -> u32
    requires { IsFrame frame.now }
    ensures { result ≡ cell_count frame.now }
{
    part_laws(&frame.grid);
    frame.part.columns.length * frame.part.rows.length
}

/// So many fields of so many places, 0 at each.
pub(crate) fn zero_fields(alloc: Global, number: usize, places: usize) -> Result<Vec<Field>, Memory>
    ensures { IfOk result (λ fields. fields.items ≡ replicate number (replicate places (pos 0))) }
{
    let mut fields = Vec::new(alloc);
    for _k in 0..number {
        fields.push(Field::new(alloc, places)?)?;
    }
    Ok(fields)
}

/// Whether one of these rows is about a field.
fn adds_field(rows: &[SetRow], field: u16) -> bool
    ensures { result ≡ list_any (λ row. row.field == field) rows.now }
{
    rows.iter().any(|row| row.field == field)
}

/// Whether a field is among these.
fn has_field(fields: &[u16], field: u16) -> bool
    ensures { result ≡ is_among fields.now field }
{
    fields.iter().any(|other| *other == field)
}

/// Whether a phase keeps or averages a field.
fn keeps_for(phase: &Phase, field: u16) -> bool
    ensures { result ≡ keeps_for field phase.now }
{
    let by_adds = adds_field(phase.adds.items(), field);
    let by_averages = has_field(phase.averages.items(), field);
    by_adds | by_averages
}

/// Whether some phase of a component keeps or averages a field.
fn is_kept_by(comp: &Comp, field: u16) -> bool
    ensures { result ≡ is_kept_by comp.now field }
{
    let phases = comp.phases.items();
    phases.iter().any(|phase| keeps_for(phase, field))
}

/// How many sums a field has: one for each of so many cells where some phase keeps or averages the field, and else none.
fn sums_held(comp: &Comp, cells: u32, field: u16) -> u32
    ensures { result ≡ sums_held comp.now cells field }
{
    if is_kept_by(comp, field) { cells } else { 0 }
}

/// Sums of nothing for each field of a component, which has at most 64.
pub(crate) fn first_accums(alloc: Global, comp: &Comp, cells: u32) -> Result<Many<Accum>, Memory>
    requires { length comp.now.fields ≤ 64 }
    ensures { IfOk result (λ accums. accums ≡ first_accums comp.now cells) }
{
    let mut accums = Vec::new(alloc);
    for k in 0..comp.fields.items().len() {
        let sums = sums_held(comp, cells, k as u16);
        accums.push(Accum::new(alloc, sums)?)?;
    }
    Ok(Many::of(accums))
}

/// A number of rows. There is no memory for more than 2^32.
fn few(rows: usize) -> Result<usize, Memory>
    ensures value { IfOk result (λ n. n ≡ rows) }
    ensures few { IfOk result (λ n. n ≤ 2 ^ 32) }
{
    if rows > 1 << 32 {
        return Err(Memory);
    }
    Ok(rows)
}

/// How many further fields a phase is carried out in.
fn further_fields(phase: &Phase) -> Result<usize, Memory>
    ensures { IfOk result (λ n. n ≡ further_fields phase.now) }
{
    let averages = few(phase.averages.items().len())?;
    let sets = few(phase.sets.items().len())?;
    let merges = few(phase.merges.items().len())?;
    Ok(averages + sets + merges + 1)
}

/// The greatest of a number and of those of further fields that phases are carried out in.
fn most_further(phases: &[Phase], least: usize) -> Result<usize, Memory>
    ensures phases { IfOk result (λ most. All (λ phase. further_fields phase ≤ most) phases.now) }
    ensures least { IfOk result (λ most. least ≤ most) }
{
    let mut most = least;
    for p in 0..phases.len() {
        most = most.max(further_fields(&phases[p])?);
    }
    Ok(most)
}

/// What the phases and the start of a component are carried out in over a block of so many cells. `started` are the places
/// of the fields with a start rule.
pub(crate) fn spare_of(
    alloc: Global,
    comp: &Comp,
    frame: &Frame,
    demand: Demand,
    started: &[u16],
) -> Result<Spare, Memory>
    requires frame { IsFrame frame.now }
    requires demand { CanBeMet demand }
    requires started { started.now ≡ places_started comp.now.fields }
    ensures { IfOk result (IsSpareFor comp.now frame.now demand) }
{
    let most = most_further(comp.phases.items(), started.len())?;
    let fields = zero_fields(alloc, most, frame.places() as usize)?;
    let cells = Field::new(alloc, cell_count(frame) as usize)?;
    let room = room_of(alloc, demand.inputs, demand.strips as u32)?;
    Ok(Spare {
        fields: Many::of(fields),
        cells,
        room,
    })
}
