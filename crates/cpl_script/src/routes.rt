//! The routes of connectors, and how many numbers they move.

ghost use Rattle.std.specs.Prelude.{◌≡◌, ◌<◌, length, sum_by, None, IfOk, IfSome, IsTrue};
ghost use Rattle.std.specs.List.{All};
ghost use Rattle.cpl_grid.specs.Grid.{cells_in};
ghost use Rattle.cpl_route.specs.Routes.{ArePetsDistinct, are_ascending, cells_sent};
ghost use Rattle.cpl_smm.specs.Needs.{needs_of};
ghost use Rattle.cpl_script.specs.Couplings.{layout_at};
ghost use Rattle.cpl_script.specs.Drafts.{IsDraft, draft_numbers, draft_route, link_from, links_from};
ghost use Rattle.cpl_script.specs.Systems.{capped, cells_route};

use crate::draft::Draft;
use crate::link::Link;
use cpl_base::Memory;
use cpl_comp::Comp;
use cpl_grid::Decomp;
use cpl_route::{Need, Route};
use cpl_smm::Weights;
use std::alloc::Global;

/// The connectors of drafts.
pub(crate) fn links_of(
    alloc: Global,
    comps: &[Comp],
    drafts: Vec<Draft>,
) -> Result<Vec<Link>, Memory>
    requires { All (IsDraft comps.now) drafts.items }
    ensures { IfOk result (λ links. links.items ≡ links_from comps.now drafts.items) }
{
    let mut links = Vec::with_capacity(alloc, drafts.len())?;
    for draft in drafts {
        let link = link_of(alloc, comps, draft)?;
        links.push(link)?;
    }
    Ok(links)
}

/// The connector of a draft.
fn link_of(alloc: Global, comps: &[Comp], draft: Draft) -> Result<Link, Memory>
    requires { IsDraft comps.now draft }
    ensures { IfOk result (λ link. link ≡ link_from comps.now draft) }
{
    let route = draft_route(alloc, comps, &draft)?;
    let Draft {
        line,
        pairs,
        weights,
    } = draft;
    Ok(Link {
        line,
        pairs,
        route,
        weights,
    })
}

/// The route of a draft, which is empty where it has no pair.
fn draft_route(alloc: Global, comps: &[Comp], draft: &Draft) -> Result<Route, Memory>
    requires { IsDraft comps.now draft.now }
    ensures { IfOk result (λ route. route ≡ draft_route comps.now draft.now) }
{
    let src = decomp_at(comps, draft.line.src);
    let dst = decomp_at(comps, draft.line.dst);
    if draft.pairs.items().is_empty() {
        return Route::pick(alloc, src, &[]);
    }
    match &draft.weights {
        None => redist_route(alloc, src, dst),
        Some(weights) => {
            let needs = needs_of(weights, dst)?;
            Route::pick(alloc, src, needs.as_slice())
        }
    }
}

/// The decomposed grid of the component of a place.
fn decomp_at(comps: &[Comp], component: u8) -> &Decomp
    requires { component < length comps.now }
    ensures { result.now ≡ layout_at comps.now component }
{
    let comp = &comps[usize::from(component)];
    &comp.decomp
}

/// The redistribution between grids of equal numbers of cells.
fn redist_route(alloc: Global, src: &Decomp, dst: &Decomp) -> Result<Route, Memory>
    requires { cells_in src.now.grid ≡ cells_in dst.now.grid }
    ensures { IfOk result (λ route. route ≡ cells_route src.now dst.now None) }
{
    match Route::redist(alloc, src, dst) {
        Ok(route) => Ok(route),
        Err(_) => Err(Memory),
    }
}

/// How many numbers the connectors of drafts move, all together; capped.
pub(crate) fn numbers_of_drafts(comps: &[Comp], drafts: &[Draft]) -> Result<u64, Memory>
    requires { All (IsDraft comps.now) drafts.now }
    ensures { IfOk result (λ total. total ≡ capped (sum_by (draft_numbers comps.now) drafts.now)) }
{
    let mut total: u64 = 0;
    for draft in drafts {
        total = total.saturating_add(draft_numbers(comps, draft)?);
    }
    Ok(total)
}

/// How many numbers the connector of a draft moves; capped.
fn draft_numbers(comps: &[Comp], draft: &Draft) -> Result<u64, Memory>
    requires { IsDraft comps.now draft.now }
    ensures { IfOk result (λ count. count ≡ capped (draft_numbers comps.now draft.now)) }
{
    let pairs = draft.pairs.items().len();
    if pairs == 0 {
        return Ok(0);
    }
    let src = decomp_at(comps, draft.line.src);
    let dst = decomp_at(comps, draft.line.dst);
    let cells = cells_total(src, dst, &draft.weights)?;
    Ok(cells.saturating_mul(pairs as u64))
}

/// How many cells the route of a connector sends.
fn cells_total(src: &Decomp, dst: &Decomp, weights: &Option<Weights>) -> Result<u64, Memory>
    requires even { weights.now ≡ None → cells_in src.now.grid ≡ cells_in dst.now.grid }
    requires cells { IfSome weights.now (λ table. cells_in dst.now.grid ≡ length table.rows) }
    ensures { IfOk result (λ count. count ≡ cells_sent (cells_route src.now dst.now weights.now)) }
{
    match weights {
        None => Ok(Route::redist_total(src, dst)),
        Some(weights) => {
            let needs = needs_of(weights, dst)?;
            Ok(Route::pick_total(src, needs.as_slice()))
        }
    }
}

/// What each PET needs by weights, in order.
fn needs_of(weights: &Weights, dst: &Decomp) -> Result<Vec<Need>, Memory>
    requires { cells_in dst.now.grid ≡ length weights.now.rows }
    ensures value { IfOk result (λ needs. needs.items ≡ needs_of weights.now dst.now) }
    ensures ascending { IfOk result (λ needs. IsTrue (are_ascending needs.items)) }
    ensures distinct { IfOk result (λ needs. ArePetsDistinct needs.items) }
{
    let _ = dst.pets();
    let needs = weights.needs(dst)?;
    Ok(needs)
}
