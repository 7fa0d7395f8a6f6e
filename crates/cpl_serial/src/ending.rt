//! What the components of a system come to, at the end of a run and before a fault.

ghost use Rattle.std.specs.Prelude.{◌≡◌, ◌≢◌, ◌<◌, IfOk, Some, ℕ, length, map, slice_get};
ghost use Rattle.std.specs.List.{enumerate_from};
ghost use Rattle.cpl_comp.specs.Worlds.{CompWorld};
ghost use Rattle.cpl_grid.specs.Parts.{whole_part};
ghost use Rattle.cpl_phase.specs.Locals.{IsLocal, StandsForComp};
ghost use Rattle.cpl_phase.specs.declared.local.LocalComp.{LocalComp};
ghost use Rattle.cpl_script.specs.SerialRun.{comp_end, comp_stop, field_end};
ghost use Rattle.cpl_script.specs.Transfers.{World, comp_at};
ghost use Rattle.cpl_serial.specs.Engines.{AreWhole, StandForWorld};
ghost use Rattle.cpl_serial.specs.Ended.{stop_after, world_end};

use crate::ends::field_end;
use cpl_base::{Many, Memory};
use cpl_comp::Comp;
use cpl_phase::LocalComp;
use cpl_script::{CompEnd, FieldEnd, System};
use std::alloc::Global;

/// The ends of all components: how many of their runs have ended, where their clocks stand, and the ends of their fields.
pub(crate) fn ends_of(
    alloc: Global,
    system: &System,
    locals: &Many<LocalComp>,
) -> Result<Many<CompEnd>, Memory>
    requires { AreWhole system.now locals.now }
    ensures { (world : World) → StandForWorld system.now world locals.now
        → IfOk result (λ ends. ends ≡ map (comp_end world) (enumerate_from 0 system.now.comps)) }
{
    let comps = system.comps();
    let slots = locals.items();
    let mut ends = Vec::new(alloc);
    for c in 0..comps.len() {
        let end = comp_end(alloc, &comps[c], &slots[c])?;
        ends.push(end)?;
    }
    Ok(Many::of(ends))
}

/// The end of a component.
fn comp_end(alloc: Global, comp: &Comp, local: &LocalComp) -> Result<CompEnd, Memory>
    requires local { IsLocal comp.now local.now }
    requires whole { local.now.frame.part ≡ whole_part local.now.frame.grid }
    ensures { (world : CompWorld) → StandsForComp comp.now world local.now → IfOk result (λ end. end ≡ world_end comp.now world) }
{
    let fields = field_ends(alloc, comp, local)?;
    Ok(CompEnd {
        runs: local.marks.runs as u64,
        clock: local.marks.clock,
        fields,
    })
}

/// The ends of a component's fields.
fn field_ends(alloc: Global, comp: &Comp, local: &LocalComp) -> Result<Many<FieldEnd>, Memory>
    requires local { IsLocal comp.now local.now }
    requires whole { local.now.frame.part ≡ whole_part local.now.frame.grid }
    ensures { (world : CompWorld) → StandsForComp comp.now world local.now
        → IfOk result (λ ends. ends ≡ map (field_end comp.now.decomp) world.fields) }
{
    let fields = local.fields.items();
    let stamps = local.marks.stamps.items();
    let mut ends = Vec::new(alloc);
    for k in 0..comp.fields.items().len() {
        ends.push(field_end(&local.frame, &fields[k], stamps[k]))?;
    }
    Ok(Many::of(ends))
}

/// How many runs of each component had ended before an operation of one of them that has a fault: of that component so many,
/// of all others as many as now.
pub(crate) fn stops_of(
    alloc: Global,
    locals: &Many<LocalComp>,
    component: u8,
    runs: u32,
) -> Result<Many<CompEnd>, Memory>
    ensures { (world : World) → length world ≡ length locals.now → (comp_at world component).runs ≡ runs
        → ((c : ℕ) (local : LocalComp) → c ≢ component → slice_get locals.now c ≡ Some local → (comp_at world c).runs ≡ local.marks.runs)
        → IfOk result (λ stops. stops ≡ map comp_stop world) }
{
    let slots = locals.items();
    let mut stops = Vec::new(alloc);
    for c in 0..slots.len() {
        let ended = runs_ended(slots, c, component, runs);
        stops.push(comp_stop(alloc, ended))?;
    }
    Ok(Many::of(stops))
}

/// How many runs of the component of a place had ended: of one component so many, of any other as many as now.
fn runs_ended(locals: &[LocalComp], place: usize, component: u8, runs: u32) -> u32
    requires { place < length locals.now }
    ensures here { place ≡ component → result ≡ runs }
    ensures other { (local : LocalComp) → place ≢ component → slice_get locals.now place ≡ Some local → result ≡ local.marks.runs }
{
    if place == component as usize {
        runs
    } else {
        locals[place].marks.runs
    }
}

/// A component of which so many runs had ended before a fault.
fn comp_stop(alloc: Global, runs: u32) -> CompEnd
    ensures { result ≡ stop_after runs }
{
    CompEnd {
        runs: runs as u64,
        clock: 0,
        fields: Many::of(Vec::new(alloc)),
    }
}
