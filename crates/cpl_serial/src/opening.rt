//! How the components of a system are made, each on its whole grid.

ghost use Rattle.std.specs.Prelude.{◌≡◌, ◌<◌, ◌≤◌, ◌||◌, All, IfOk, Some, ℕ, false, length, slice_get, slice_index_or};
ghost use Rattle.std.specs.List.{list_any};
ghost use Rattle.cpl_comp.specs.Worlds.{first_comp};
ghost use Rattle.cpl_comp.specs.declared.component.Comp.{Comp};
ghost use Rattle.cpl_grid.specs.Grid.{cells_in};
ghost use Rattle.cpl_grid.specs.Parts.{whole_part};
ghost use Rattle.cpl_phase.specs.Locals.{IsAged, StandsForComp};
ghost use Rattle.cpl_script.specs.Couplings.{is_connected, is_pair_into};
ghost use Rattle.cpl_script.specs.SerialRun.{first_world};
ghost use Rattle.cpl_serial.specs.Engines.{AreWhole, HaveRoomFor, IsWhole, StandForWorld};
ghost use Rattle.cpl_serial.specs.Opened.{IsPairWithin};

use crate::linking::Buffers;
use cpl_base::{Many, Memory};
use cpl_block::whole_laws;
use cpl_field::Field;
use cpl_grid::{Block, Grid, Part};
use cpl_match::Pair;
use cpl_phase::LocalComp;
use cpl_script::System;
use std::alloc::Global;

/// All components of a system on their whole grids, at the start.
pub(crate) fn open_comps(alloc: Global, system: &System) -> Result<Many<LocalComp>, Memory>
    ensures whole { IfOk result (AreWhole system.now) }
    ensures start { IfOk result (StandForWorld system.now (first_world system.now)) }
    ensures young { IfOk result (All (IsAged 0)) }
{
    system.facts();
    let mut locals = Vec::new(alloc);
    for c in 0..system.comps().len() {
        let local = open_comp(alloc, system, c as u8)?;
        locals.push(local)?;
    }
    Ok(Many::of(locals))
}

/// A component on its whole grid, at the start.
fn open_comp(alloc: Global, system: &System, component: u8) -> Result<LocalComp, Memory>
    requires { component < length system.now.comps }
    ensures whole { IfOk result (λ local. (comp : Comp) → slice_get system.now.comps component ≡ Some comp
        → IsWhole system.now component comp local) }
    ensures start { IfOk result (λ local. (comp : Comp) → slice_get system.now.comps component ≡ Some comp
        → StandsForComp comp (first_comp comp) local) }
    ensures young { IfOk result (IsAged 0) }
{
    system.facts();
    let place = component as usize;
    let comp = &system.comps()[place];
    let part = whole_part(comp.decomp.grid());
    let connected = connected_of(alloc, system, component)?;
    let local = LocalComp::new(alloc, comp, part, connected.as_slice())?;
    whole_laws(&local.frame);
    Ok(local)
}

/// The part of a grid that has all its cells.
fn whole_part(grid: Grid) -> Part
    ensures { result ≡ whole_part grid }
{
    let columns = Block {
        start: 0,
        length: grid.nx,
    };
    let rows = Block {
        start: 0,
        length: grid.ny,
    };
    Part { columns, rows }
}

/// For each field of the component of a place, whether some export feeds it. Time in the pairs of all connectors.
fn connected_of(alloc: Global, system: &System, component: u8) -> Result<Vec<bool>, Memory>
    requires { component < length system.now.comps }
    ensures count { (comp : Comp) → slice_get system.now.comps component ≡ Some comp
        → IfOk result (λ flags. length flags.items ≡ length comp.fields) }
    ensures value { IfOk result (λ flags. (k : ℕ) → slice_index_or flags.items k false ≡ is_connected system.now component k) }
{
    system.facts();
    let place = component as usize;
    let comp = &system.comps()[place];
    let mut flags = Vec::from_elem(alloc, false, comp.fields.items().len())?;
    for line in system.links() {
        mark_pairs(line.pairs.items(), component, &mut flags);
    }
    Ok(flags)
}

/// Marks the fields of a component that these pairs feed.
fn mark_pairs(pairs: &[Pair], component: u8, flags: &mut Vec<bool>)
    requires { All (IsPairWithin component (length flags.old.items)) pairs.now }
    ensures count { length flags.new.items ≡ length flags.old.items }
    ensures marked { (k : ℕ) → slice_index_or flags.new.items k false
        ≡ (slice_index_or flags.old.items k false || list_any (is_pair_into component k) pairs.now) }
{
    for pair in pairs {
        if pair.dst == component {
            flags[pair.dst_field as usize] = true;
        }
    }
}

/// Room in which links are carried out: for the greatest grid.
pub(crate) fn buffers_of(alloc: Global, system: &System) -> Result<Buffers, Memory>
    ensures { IfOk result (HaveRoomFor system.now) }
{
    let cells = most_cells(system);
    let image = Field::new(alloc, cells)?;
    let gathered = Field::new(alloc, cells)?;
    Ok(Buffers { image, gathered })
}

/// How many cells the greatest grid of a system has.
fn most_cells(system: &System) -> usize
    ensures { All (λ comp. cells_in comp.decomp.grid ≤ result) system.now.comps }
{
    let mut most = 0;
    for comp in system.comps() {
        most = most.max(comp.decomp.grid().cells() as usize);
    }
    most
}
