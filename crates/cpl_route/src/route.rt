//! Routes: which cells each PET sends to each other.

ghost use Rattle.std.specs.Prelude.{◌≡◌, ℕ, ◌+◌, ◌≤◌, ◌<◌, IsTrue, true, List, nat_lt, ◌==◌, ◌&&◌, map, slice_range, IfOk};
ghost use Rattle.std.specs.List.{All};
ghost use Rattle.cpl_base.specs.Gives.{Gives};
ghost use Rattle.cpl_grid.specs.Grid.{cells_in};
ghost use Rattle.cpl_route.specs.Routes.{AreLegs, AreOffsets, ArePetsDistinct, IsRising, are_ascending, cells_between, cells_sent, ends_of, halo_route, pick_route, redist_answer, redist_route};
ghost use Rattle.cpl_route.specs.Tables.{AreRankedLegs, IsSpan, IsTable, legs_at, pairs_of, rank_of, span_rank};
ghost use Rattle.cpl_route.specs.declared.fault.RouteFault.{RouteFault};

use crate::fault::RouteFault;
use crate::halo::halo_of;
use crate::need::{Need, are_ascending};
use crate::pick::pick_of;
use crate::redist::redist_between;
use crate::sorted::ascending_needs;
use crate::table::{Span, Table, table_of, total_of};
use cpl_base::Memory;
use cpl_grid::Decomp;
use std::alloc::Global;
use std::marker::Model;

/// Which cells each PET sends to each other. Contracts see the list of its legs: for each pair of PETs with cells
/// these cells, by sender and then by receiver.
///
/// Source: ESMF Reference Manual, route handles.
#[derive(Debug, Drop)]
pub struct Route {
    pairs: Vec<(u8, u8)>,
    spans: Vec<Span>,
    cells: Vec<u32>,
}

impl Model for Route {
    ghost use Rattle.std.specs.Prelude.{List};
    ghost use Rattle.cpl_route.specs.Routes.{Leg};
    ghost use Rattle.cpl_route.specs.Tables.{IsRoute, legs_at};

    ghost Value = { List Leg };

    ghost view = { λ route. legs_at route.spans.items route.cells.items };

    ghost invariant = { λ route. IsRoute route.pairs.items route.spans.items route.cells.items };
}

impl Route {
    /// The redistribution from one decomposed grid to another: each cell, by its sequence index, goes from the PET that
    /// owns it in the one to the PET that owns it in the other, which may be the same PET. The grids may have other
    /// shapes and be divided among other PETs. Takes four bytes a cell.
    ///
    /// Errors: `SizeDiffers`, with both numbers, exactly where the grids have unequal numbers of cells; `Memory`.
    ///
    /// Source: ESMF Reference Manual, redistribution of Arrays.
    pub fn redist(alloc: Global, src: &Decomp, dst: &Decomp) -> Result<Route, RouteFault>
        ensures { Gives RouteFault.Memory (λ route. route) result (redist_answer src.now dst.now) }
    {
        let have = src.grid().cells();
        let want = dst.grid().cells();
        if have != want {
            return Err(RouteFault::SizeDiffers {
                src: have,
                dst: want,
            });
        }
        let redist = redist_between(src, dst);
        let table = table_of(alloc, &redist, have as usize)?;
        let route = route_with(alloc, table)?;
        Ok(route)
    }

    /// How many cells a redistribution between two decomposed grids of equal numbers of cells sends. Takes no memory.
    ///
    /// Source: this project's own.
    pub fn redist_total(src: &Decomp, dst: &Decomp) -> u64
        requires { cells_in src.now.grid ≡ cells_in dst.now.grid }
        ensures { result ≡ cells_sent (redist_route src.now dst.now) }
    {
        let _ = dst.pets();
        total_of(&redist_between(src, dst))
    }

    /// The halo of a decomposed grid: each PET gets the neighbours of its cells, at any of the offsets, that it doesn't own,
    /// each once, from the PETs that own them. An offset is a number of columns and a number of rows, both from -2 to 2;
    /// where the grid is periodic the columns are a ring, and past any other edge stands the edge. Takes four bytes a
    /// cell.
    ///
    /// Errors: `Memory`.
    ///
    /// Source: ESMF Reference Manual, halo regions of Arrays; which cells are neighbours, this project's own.
    pub fn halo(alloc: Global, decomp: &Decomp, offsets: &[(i8, i8)]) -> Result<Route, Memory>
        requires { AreOffsets offsets.now }
        ensures { IfOk result (λ route. route ≡ halo_route decomp.now offsets.now) }
    {
        let _ = decomp.pets();
        let halo = halo_of(decomp, offsets);
        let room = total_of(&halo) as usize;
        let table = table_of(alloc, &halo, room)?;
        let route = route_with(alloc, table)?;
        Ok(route)
    }

    /// How many cells the halo of a decomposed grid sends; the offsets are from -2 to 2. Takes no memory.
    ///
    /// Source: this project's own.
    pub fn halo_total(decomp: &Decomp, offsets: &[(i8, i8)]) -> u64
        requires { AreOffsets offsets.now }
        ensures { result ≡ cells_sent (halo_route decomp.now offsets.now) }
    {
        let _ = decomp.pets();
        total_of(&halo_of(decomp, offsets))
    }

    /// The route by which each PET gets the cells of its list from the PETs that own them: each cell of the list that the
    /// grid has once, however often and in whatever order the list names it. The lists are of distinct PETs, which need
    /// not own cells of the grid. Takes four bytes a cell, and where the lists aren't in order a copy of them for as long
    /// as it works.
    ///
    /// Errors: `Memory`.
    ///
    /// Source: ESMF Reference Manual, sparse matrix multiplication of Arrays.
    pub fn pick(alloc: Global, src: &Decomp, needs: &[Need]) -> Result<Route, Memory>
        requires { ArePetsDistinct needs.now }
        ensures { IfOk result (λ route. route ≡ pick_route src.now needs.now) }
    {
        if are_ascending(needs) {
            let route = pick_ascending(alloc, src, needs)?;
            return Ok(route);
        }
        let copies = ascending_needs(alloc, needs)?;
        let route = pick_ascending(alloc, src, copies.as_slice())?;
        Ok(route)
    }

    /// How many cells the route of `pick` sends, for lists in the order of `are_ascending`. Takes no memory.
    ///
    /// Source: this project's own.
    pub fn pick_total(src: &Decomp, needs: &[Need]) -> u64
        requires { IsTrue (are_ascending needs.now) }
        ensures { result ≡ cells_sent (pick_route src.now needs.now) }
    {
        total_of(&pick_of(src, needs))
    }

    /// The pairs of PETs with cells, sender and receiver, by sender and then by receiver.
    ///
    /// Source: this project's own.
    pub fn pairs(&self) -> &[(u8, u8)]
        ensures value { result.now ≡ ends_of self.now }
        ensures legs { AreLegs self.now }
    {
        self.pairs.as_slice()
    }

    /// The cells that the PET `from` sends to the PET `to`, by their sequence indices, ascending, each once; none where
    /// it sends none. Takes logarithmic time in the number of pairs.
    ///
    /// Source: this project's own.
    pub fn cells(&self, from: u8, to: u8) -> &[u32]
        ensures { result.now ≡ cells_between self.now from to }
    {
        let (start, end) = range_between(&self.spans, self.cells.len(), from, to);
        &self.cells[start..end]
    }

    /// How many cells are sent, all together.
    ///
    /// Source: this project's own.
    pub fn total(&self) -> u64
        ensures { result ≡ cells_sent self.now }
    {
        self.cells.len() as u64
    }
}

/// The route of lists in order.
fn pick_ascending(alloc: Global, src: &Decomp, needs: &[Need]) -> Result<Route, Memory>
    requires { are_ascending needs.now ≡ true }
    ensures { IfOk result (λ route. route ≡ pick_route src.now needs.now) }
{
    let pick = pick_of(src, needs);
    let room = total_of(&pick) as usize;
    let table = table_of(alloc, &pick, room)?;
    let route = route_with(alloc, table)?;
    Ok(route)
}

/// The route with the legs of a table.
fn route_with(alloc: Global, table: Table) -> Result<Route, Memory>
    requires table { IsTable table.spans.items table.cells.items }
    requires ranked { AreRankedLegs (legs_at table.spans.items table.cells.items) }
    ensures { IfOk result (λ route. route ≡ legs_at table.spans.items table.cells.items) }
{
    let Table { spans, cells } = table;
    let pairs = pairs_in(alloc, &spans)?;
    Ok(Route {
        pairs,
        spans,
        cells,
    })
}

/// The pairs of spans.
fn pairs_in(alloc: Global, spans: &[Span]) -> Result<Vec<(u8, u8)>, Memory>
    ensures { IfOk result (λ pairs. pairs.items ≡ pairs_of spans.now) }
{
    let mut pairs = Vec::with_capacity(alloc, spans.len())?;
    for span in spans {
        pairs.push((span.from, span.to))?;
    }
    Ok(pairs)
}

/// Where the cells of a pair stand, or an empty range where no span is its.
fn range_between(spans: &[Span], size: usize, from: u8, to: u8) -> (usize, usize)
    requires spans { All (IsSpan size) spans.now }
    requires rising { IsRising 0 (map span_rank spans.now) }
    ensures value { (cells : List ℕ) → slice_range cells result.0 result.1 ≡ cells_between (legs_at spans.now cells) from to }
    ensures order { result.0 ≤ result.1 }
    ensures within { result.1 ≤ size }
{
    let rank = rank_between(from, to);
    let place = spans.partition_point(
        |span: &Span| -> bool
            ensures { result ≡ nat_lt (span_rank span.now) rank }
        { rank_between(span.from, span.to) < rank },
    );
    if place >= spans.len() {
        return (0, 0);
    }
    let span = spans[place];
    if !is_of(span, from, to) {
        return (0, 0);
    }
    (span.start, span.end)
}

/// Whether a span is a pair's.
fn is_of(span: Span, from: u8, to: u8) -> bool
    ensures { result ≡ (span.from == from && span.to == to) }
{
    span.from == from && span.to == to
}

/// The rank of a pair among all pairs: by the first, then by the second.
fn rank_between(from: u8, to: u8) -> u32
    ensures { result ≡ rank_of from to }
{
    u32::from(from) * 256 + u32::from(to)
}
