//! How a component on a block of its grid is made.

ghost use Rattle.std.specs.Prelude.{◌≡◌, ◌≤◌, IfOk, length, pos, replicate};
ghost use Rattle.cpl_block.specs.Frames.{IsFrame};
ghost use Rattle.cpl_block.specs.Rings.{IsRing};
ghost use Rattle.cpl_comp.specs.Turns.{places_of};
ghost use Rattle.cpl_comp.specs.Worlds.{first_comp};
ghost use Rattle.cpl_comp.specs.declared.component.Role.TheVariants.{Export as ExportRole};
ghost use Rattle.cpl_grid.specs.Grid.{column_of, row_of};
ghost use Rattle.cpl_grid.specs.Parts.{IsPart};
ghost use Rattle.cpl_comp.specs.Readings.{whole};
ghost use Rattle.cpl_rule.specs.Demands.{IsDemandOf};
ghost use Rattle.cpl_rule.specs.Numbered.{IsNumbered};
ghost use Rattle.cpl_phase.specs.Locals.{ArePlans, IsAged, IsLocal, IsRealised, StandsForComp};
ghost use Rattle.cpl_phase.specs.Opened.{AreFirstFields, first_accums};
ghost use Rattle.cpl_phase.specs.Rooms.{cell_count};
ghost use Rattle.cpl_phase.specs.Sites.{AreSites};
ghost use Rattle.cpl_phase.specs.Starts.{places_started};

use crate::local::{Area, LocalComp};
use crate::rooms::{cell_count, first_accums, spare_of, zero_fields};
use crate::sites::sites_of;
use crate::starting::started_places;
use cpl_base::{Many, Memory};
use cpl_block::{Frame, ring_of};
use cpl_comp::Comp;
use cpl_field::Field;
use cpl_grid::Part;
use cpl_marks::{StampPlan, export_places, first_marks, stamp_plan};
use cpl_mediator::Accum;
use cpl_rule::{Demand, demand_of, write_numbers};
use std::alloc::Global;

/// What of a component on a block says which fields and phases there are.
#[derive(Drop)]
struct Lists {
    /// Whether the field of a place is an import that has an export.
    connected: Many<bool>,
    /// What the runs of each phase check and stamp.
    plans: Many<StampPlan>,
    /// The places of the exports.
    exports: Many<u16>,
    /// The places of the fields with a start rule.
    started: Many<u16>,
}

/// What of a component on a block holds values.
#[derive(Drop)]
struct Values {
    /// The fields.
    fields: Many<Field>,
    /// What is kept for each field.
    accums: Many<Accum>,
    /// The values of each field at the block's cells.
    shown: Many<Field>,
}

/// The numbers of the cells of a block.
#[derive(Drop)]
struct Numbers {
    columns: Field,
    rows: Field,
    cells: Field,
}

impl LocalComp {
    /// A component on a block of its grid, as it is before its initialisation: its clock stands at 0, no field has a stamp, and
    /// all values are 0. The component was realised, the block has a cell, and `connected` says of each field whether it is an
    /// import that has an export. All memory that its phases and its start need is taken here.
    ///
    /// Errors: `Memory` where memory runs out, and where a rule asks for so many strips that there can be no memory for them.
    ///
    /// Source: this project's own.
    pub fn new(
        alloc: Global,
        comp: &Comp,
        part: Part,
        connected: &[bool],
    ) -> Result<LocalComp, Memory>
        requires accepted { IsRealised comp.now }
        requires part { IsPart comp.now.decomp.grid part }
        requires columns { 1 ≤ part.columns.length }
        requires rows { 1 ≤ part.rows.length }
        requires connected { length connected.now ≡ length comp.now.fields }
        ensures local { IfOk result (IsLocal comp.now) }
        ensures part { IfOk result (λ local. local.frame.part ≡ part) }
        ensures connected { IfOk result (λ local. local.connected ≡ connected.now) }
        ensures start { IfOk result (StandsForComp comp.now (first_comp comp.now)) }
        ensures young { IfOk result (IsAged 0) }
    {
        let demand = near_demand(comp);
        // A formula that is worked out in so many strips can't be in memory itself.
        if !demand.can_be_met() {
            return Err(Memory);
        }
        let frame = frame_of(comp, part, demand);
        let area = area_of(alloc, &frame)?;
        let lists = lists_of(alloc, comp, connected)?;
        let marks = first_marks(alloc, comp.fields.items().len())?;
        let values = values_of(alloc, comp, &frame)?;
        let spare = spare_of(alloc, comp, &frame, demand, lists.started.items())?;
        let Lists {
            connected,
            plans,
            exports,
            started,
        } = lists;
        let Values {
            fields,
            accums,
            shown,
        } = values;
        Ok(LocalComp {
            frame,
            demand,
            area,
            connected,
            plans,
            exports,
            started,
            marks,
            fields,
            accums,
            shown,
            spare,
        })
    }
}

/// What the rules of a component ask for: a ring of at most two columns and two rows.
fn near_demand(comp: &Comp) -> Demand
    requires { IsRealised comp.now }
    ensures covers { IsDemandOf comp.now result }
    ensures across { result.rx ≤ 2 }
    ensures down { result.ry ≤ 2 }
{
    demand_of(comp)
}

/// A part of a component's grid, with a ring as wide as a demand asks.
fn frame_of(comp: &Comp, part: Part, demand: Demand) -> Frame
    requires part { IsPart comp.now.decomp.grid part }
    requires columns { 1 ≤ part.columns.length }
    requires rows { 1 ≤ part.rows.length }
    requires across { demand.rx ≤ 2 }
    requires down { demand.ry ≤ 2 }
    ensures frame { IsFrame result }
    ensures over { result.grid ≡ comp.now.decomp.grid }
    ensures part { result.part ≡ part }
    ensures rx { result.rx ≡ demand.rx }
    ensures ry { result.ry ≡ demand.ry }
{
    Frame {
        grid: comp.decomp.grid(),
        part,
        rx: demand.rx,
        ry: demand.ry,
    }
}

/// The places of a block and of its ring.
fn area_of(alloc: Global, frame: &Frame) -> Result<Area, Memory>
    requires { IsFrame frame.now }
    ensures ring { IfOk result (λ area. IsRing frame.now area.ring) }
    ensures sites { IfOk result (λ area. AreSites frame.now area.sites) }
{
    let ring = ring_of(alloc, frame)?;
    let sites = sites_of(alloc, frame)?;
    Ok(Area { ring, sites })
}

/// What the runs of each phase of a component check and stamp. The component has at most 64 fields.
fn plans_of(alloc: Global, comp: &Comp, connected: &[bool]) -> Result<Many<StampPlan>, Memory>
    requires fields { length comp.now.fields ≤ 64 }
    requires connected { length connected.now ≡ length comp.now.fields }
    ensures { IfOk result (ArePlans comp.now connected.now) }
{
    let phases = comp.phases.items();
    let mut plans = Vec::new(alloc);
    for p in 0..phases.len() {
        let plan = stamp_plan(alloc, comp, &phases[p], connected)?;
        plans.push(plan)?;
    }
    Ok(Many::of(plans))
}

/// What says which fields and phases there are, of a component of at most 64 fields.
fn lists_of(alloc: Global, comp: &Comp, connected: &[bool]) -> Result<Lists, Memory>
    requires fields { length comp.now.fields ≤ 64 }
    requires connected { length connected.now ≡ length comp.now.fields }
    ensures connected { IfOk result (λ lists. lists.connected ≡ connected.now) }
    ensures plans { IfOk result (λ lists. ArePlans comp.now connected.now lists.plans) }
    ensures exports { IfOk result (λ lists. lists.exports ≡ places_of ExportRole comp.now.fields) }
    ensures started { IfOk result (λ lists. lists.started ≡ places_started comp.now.fields) }
{
    let plans = plans_of(alloc, comp, connected)?;
    let exports = export_places(alloc, comp.fields.items())?;
    let started = started_places(alloc, comp.fields.items())?;
    let copy = Vec::from_slice(alloc, connected)?;
    Ok(Lists {
        connected: Many::of(copy),
        plans,
        exports,
        started: Many::of(started),
    })
}

/// Fields with the column, the row and the sequence index of the cell that each place of a block stands for.
fn numbers_of(alloc: Global, frame: &Frame) -> Result<Numbers, Memory>
    requires { IsFrame frame.now }
    ensures columns { IfOk result (λ numbers. IsNumbered frame.now (λ s. whole (pos (column_of frame.now.grid s))) numbers.columns) }
    ensures rows { IfOk result (λ numbers. IsNumbered frame.now (λ s. whole (pos (row_of frame.now.grid s))) numbers.rows) }
    ensures cells { IfOk result (λ numbers. IsNumbered frame.now (λ s. whole (pos s)) numbers.cells) }
{
    let places = frame.places() as usize;
    let mut columns = Field::new(alloc, places)?;
    let mut rows = Field::new(alloc, places)?;
    let mut cells = Field::new(alloc, places)?;
    write_numbers(
        frame,
        columns.values_mut(),
        rows.values_mut(),
        cells.values_mut(),
    );
    Ok(Numbers {
        columns,
        rows,
        cells,
    })
}

/// So many fields of a block, 0 everywhere, and behind them those with the numbers of the cells.
fn first_fields(alloc: Global, frame: &Frame, count: usize) -> Result<Many<Field>, Memory>
    requires { IsFrame frame.now }
    ensures { IfOk result (AreFirstFields frame.now count) }
{
    let numbers = numbers_of(alloc, frame)?;
    let Numbers {
        columns,
        rows,
        cells,
    } = numbers;
    let mut fields = zero_fields(alloc, count, frame.places() as usize)?;
    fields.push(columns)?;
    fields.push(rows)?;
    fields.push(cells)?;
    Ok(Many::of(fields))
}

/// What holds values, of a component of at most 64 fields: they are all 0.
fn values_of(alloc: Global, comp: &Comp, frame: &Frame) -> Result<Values, Memory>
    requires count { length comp.now.fields ≤ 64 }
    requires frame { IsFrame frame.now }
    ensures fields { IfOk result (λ values. AreFirstFields frame.now (length comp.now.fields) values.fields) }
    ensures accums { IfOk result (λ values. values.accums ≡ first_accums comp.now (cell_count frame.now)) }
    ensures shown { IfOk result (λ values. values.shown ≡ replicate (length comp.now.fields) (replicate (cell_count frame.now) (pos 0))) }
{
    let count = comp.fields.items().len();
    let cells = cell_count(frame);
    let fields = first_fields(alloc, frame, count)?;
    let accums = first_accums(alloc, comp, cells)?;
    let shown = zero_fields(alloc, count, cells as usize)?;
    Ok(Values {
        fields,
        accums,
        shown: Many::of(shown),
    })
}
