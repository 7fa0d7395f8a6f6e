//! The routes of what rules read beside the cell, and how many numbers they move.

ghost use Rattle.std.specs.Prelude.{◌≡◌, ◌<◌, Some, length, map, slice_get, sum_by, IfOk};
ghost use Rattle.std.specs.List.{All};
ghost use Rattle.cpl_route.specs.Routes.{AreOffsets};
ghost use Rattle.cpl_script.specs.Halos.{comp_numbers, halo_numbers, route_of_halo};
ghost use Rattle.cpl_script.specs.Kept.{HasNearHalos, halo_routes_of};
ghost use Rattle.cpl_script.specs.Systems.{capped};

use cpl_base::{Many, Memory};
use cpl_comp::{Comp, Halo};
use cpl_route::Route;
use std::alloc::Global;

/// The routes of what a component reads beside the cell.
#[derive(Drop)]
pub(crate) struct HaloRoutes {
    /// For its initialisation.
    pub start: Route,
    /// For each of its phases.
    pub phases: Many<Route>,
}

/// The routes of components.
pub(crate) fn halos_of(alloc: Global, comps: &[Comp]) -> Result<Vec<HaloRoutes>, Memory>
    requires { All HasNearHalos comps.now }
    ensures { IfOk result (λ halos. halos.items ≡ map halo_routes_of comps.now) }
{
    let mut halos = Vec::with_capacity(alloc, comps.len())?;
    for comp in comps {
        let routes = halo_routes_of(alloc, comp)?;
        halos.push(routes)?;
    }
    Ok(halos)
}

/// The routes of a component.
fn halo_routes_of(alloc: Global, comp: &Comp) -> Result<HaloRoutes, Memory>
    requires { HasNearHalos comp.now }
    ensures { IfOk result (λ routes. routes ≡ halo_routes_of comp.now) }
{
    let start = route_of_halo(alloc, comp, &comp.start_halo)?;
    let phases = phase_routes(alloc, comp)?;
    Ok(HaloRoutes {
        start,
        phases: Many::of(phases),
    })
}

/// The routes of the phases of a component.
fn phase_routes(alloc: Global, comp: &Comp) -> Result<Vec<Route>, Memory>
    requires { HasNearHalos comp.now }
    ensures { IfOk result (λ routes. routes.items ≡ map (λ phase. route_of_halo comp.now phase.halo) comp.now.phases) }
{
    let phases = comp.phases.items();
    let mut routes = Vec::with_capacity(alloc, phases.len())?;
    for phase in phases {
        let route = route_of_halo(alloc, comp, &phase.halo)?;
        routes.push(route)?;
    }
    Ok(routes)
}

/// The route of a halo of a component.
fn route_of_halo(alloc: Global, comp: &Comp, halo: &Halo) -> Result<Route, Memory>
    requires { AreOffsets halo.now.offsets }
    ensures { IfOk result (λ route. route ≡ route_of_halo comp.now halo.now) }
{
    Route::halo(alloc, &comp.decomp, halo.offsets.items())
}

/// How many numbers the halos of components move, all together; capped. Takes no memory.
pub(crate) fn numbers_of_comps(comps: &[Comp]) -> u64
    requires { All HasNearHalos comps.now }
    ensures { result ≡ capped (sum_by comp_numbers comps.now) }
{
    let mut total: u64 = 0;
    for comp in comps {
        total = total.saturating_add(comp_numbers(comp));
    }
    total
}

/// How many numbers the initialisation and the phases of a component move; capped.
fn comp_numbers(comp: &Comp) -> u64
    requires { HasNearHalos comp.now }
    ensures { result ≡ capped (comp_numbers comp.now) }
{
    halo_numbers(comp, &comp.start_halo).saturating_add(phase_numbers(comp))
}

/// How many numbers the phases of a component move; capped.
fn phase_numbers(comp: &Comp) -> u64
    requires { HasNearHalos comp.now }
    ensures { result ≡ capped (sum_by (λ phase. halo_numbers comp.now phase.halo) comp.now.phases) }
{
    let phases = comp.phases.items();
    let mut total: u64 = 0;
    for phase in phases {
        total = total.saturating_add(halo_numbers(comp, &phase.halo));
    }
    total
}

/// How many numbers a halo moves; capped.
fn halo_numbers(comp: &Comp, halo: &Halo) -> u64
    requires { AreOffsets halo.now.offsets }
    ensures { result ≡ capped (halo_numbers comp.now halo.now) }
{
    let cells = Route::halo_total(&comp.decomp, halo.offsets.items());
    cells.saturating_mul(halo.fields.items().len() as u64)
}

impl HaloRoutes {
    /// The route of a phase.
    pub fn phase(&self, phase: u8) -> &Route
        requires { phase < length self.now.phases }
        ensures { slice_get self.now.phases phase ≡ Some result.now }
    {
        let phases = self.phases.items();
        &phases[usize::from(phase)]
    }
}
