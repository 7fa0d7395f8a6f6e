//! Where the places lie that are at an offset from those of a block: one stretch of places, or two on a ring.

ghost use Rattle.std.specs.Prelude.{◌≡◌, ℕ, ◌+◌, ◌≤◌, ◌<◌, ◌^◌, ◌==◌, true, false, [], ◌∷◌, IsTrue};
ghost use Rattle.std.specs.List.{All, list_any};
ghost use Rattle.cpl_grid.specs.Grid.{IsGrid, IsOffset, column_at, row_at};
ghost use Rattle.cpl_route.specs.Places.{is_held};
ghost use Rattle.cpl_route.specs.Routes.{AreOffsets};
ghost use Rattle.cpl_route.specs.Reach.{AreReaches, AreSteady, IsImage, IsReachIn, IsSteady, IsWithin, edge_place, is_reached, is_used_across, is_used_down, nowhere, reach_for, reaches_column, reaches_row, ring_place, steps_from_least};

use crate::needs::{block_stretch, holds};
use cpl_grid::{Block, Grid};

/// The places, from 0, that lie at one offset from those of a block.
#[derive(Clone, Copy)]
pub(crate) struct Reach {
    /// The places up to the last one that there is.
    pub first: Block,
    /// On a ring those from its first place on, which may be none.
    pub wrapped: Block,
}

/// The places that lie at offsets from -2 to 2 from those of a block: at each offset that a halo has.
#[derive(Clone, Copy)]
pub(crate) struct Reaches {
    /// By the offset, from -2 on.
    pub each: [Reach; 5],
    /// A block that has all these places.
    pub hull: Block,
}

/// The columns that lie at an offset from those of a block, if one of the offsets is `dx` along the
/// columns; else none.
pub(crate) fn columns_reached(grid: Grid, block: Block, offsets: &[(i8, i8)], dx: i8) -> Reach
    requires grid { IsGrid grid }
    requires offset { IsOffset dx }
    requires offsets { AreOffsets offsets.now }
    requires within { block.start + block.length ≤ grid.nx }
    ensures columns { is_used_across offsets.now dx ≡ true →
        (i : ℕ) → is_reached result i ≡ reaches_column grid block dx i }
    ensures within { IsReachIn grid.nx result }
{
    let steps = steps_of(dx);
    if !is_used_across(offsets, steps) {
        nowhere()
    } else if grid.periodic {
        ring_reach(grid.nx, block, steps)
    } else {
        edge_reach(grid.nx, block, steps)
    }
}

/// The rows that lie at an offset from those of a block, if one of the offsets is `dy` along the rows;
/// else none.
pub(crate) fn rows_reached(grid: Grid, block: Block, offsets: &[(i8, i8)], dy: i8) -> Reach
    requires grid { IsGrid grid }
    requires offset { IsOffset dy }
    requires offsets { AreOffsets offsets.now }
    requires within { block.start + block.length ≤ grid.ny }
    ensures rows { is_used_down offsets.now dy ≡ true →
        (j : ℕ) → is_reached result j ≡ reaches_row grid block dy j }
    ensures within { IsReachIn grid.ny result }
{
    let steps = steps_of(dy);
    if is_used_down(offsets, steps) {
        edge_reach(grid.ny, block, steps)
    } else {
        nowhere()
    }
}

impl Reach {
    /// Whether a place is reached.
    pub fn holds(&self, place: u32) -> bool
        requires { IsReachIn (2 ^ 20) self.now }
        ensures { result ≡ is_reached self.now place }
    {
        holds(self.first, place) || holds(self.wrapped, place)
    }

    /// From a place on, up to `limit` at most, the end of the places that are reached, or not, alike.
    pub fn stretch_end(&self, place: u32, limit: u32) -> u32
        requires small { IsReachIn (2 ^ 20) self.now }
        requires place { place < limit }
        ensures { IsSteady (is_reached self.now) place limit result }
    {
        let first = block_stretch(self.first, place, limit);
        let both = block_stretch(self.wrapped, place, first.end);
        both.end
    }
}

impl Reaches {
    /// The columns that lie at each of the offsets from those of a block.
    pub fn of_columns(grid: Grid, block: Block, offsets: &[(i8, i8)]) -> Reaches
        requires grid { IsGrid grid }
        requires offsets { AreOffsets offsets.now }
        requires within { block.start + block.length ≤ grid.nx }
        ensures { AreReaches (column_at grid) (is_used_across offsets.now) block result }
    {
        let far_back = columns_reached(grid, block, offsets, -2);
        let back = columns_reached(grid, block, offsets, -1);
        let here = columns_reached(grid, block, offsets, 0);
        let ahead = columns_reached(grid, block, offsets, 1);
        let far_ahead = columns_reached(grid, block, offsets, 2);
        together(far_back, back, here, ahead, far_ahead)
    }

    /// The rows that lie at each of the offsets from those of a block.
    pub fn of_rows(grid: Grid, block: Block, offsets: &[(i8, i8)]) -> Reaches
        requires grid { IsGrid grid }
        requires offsets { AreOffsets offsets.now }
        requires within { block.start + block.length ≤ grid.ny }
        ensures { AreReaches (row_at grid) (is_used_down offsets.now) block result }
    {
        let far_back = rows_reached(grid, block, offsets, -2);
        let back = rows_reached(grid, block, offsets, -1);
        let here = rows_reached(grid, block, offsets, 0);
        let ahead = rows_reached(grid, block, offsets, 1);
        let far_ahead = rows_reached(grid, block, offsets, 2);
        together(far_back, back, here, ahead, far_ahead)
    }

    /// Whether a place is reached at an offset.
    pub fn holds(&self, offset: i8, place: u32) -> bool
        requires small { All (IsReachIn (2 ^ 20)) self.now.each }
        requires offset { IsOffset offset }
        ensures { result ≡ is_reached (reach_for self.now offset) place }
    {
        let reach = self.each[steps_of(offset) as usize];
        reach.holds(place)
    }

    /// From a place on, up to `limit` at most, the end of the places that are reached, or not, alike at
    /// every offset.
    pub fn stretch_end(&self, place: u32, limit: u32) -> u32
        requires small { All (IsReachIn (2 ^ 20)) self.now.each }
        requires place { place < limit }
        ensures { AreSteady self.now.each place limit result }
    {
        let mut end = limit;
        for reach in self.each.iter() {
            end = reach.stretch_end(place, end);
        }
        end
    }

    /// Whether no place of a block can be reached, by a look at the hull alone. It may be false of a
    /// block that isn't reached.
    pub fn misses(&self, block: Block) -> bool
        requires hull { self.now.hull.start + self.now.hull.length < 2 ^ 32 }
        requires block { block.start + block.length < 2 ^ 32 }
        ensures { IsTrue result → (i : ℕ) → is_held block i ≡ true → is_held self.now.hull i ≡ false }
    {
        block.start + block.length <= self.hull.start
            || self.hull.start + self.hull.length <= block.start
    }
}

/// An offset, counted from -2.
fn steps_of(offset: i8) -> u32
    requires { IsOffset offset }
    ensures value { result ≡ steps_from_least offset }
    ensures within { result ≤ 4 }
{
    (offset + 2) as u32
}

/// Whether one of the offsets is so many steps from -2 along the columns.
fn is_used_across(offsets: &[(i8, i8)], steps: u32) -> bool
    requires { AreOffsets offsets.now }
    ensures { result ≡ list_any (λ offset. steps_from_least offset.0 == steps) offsets.now }
{
    for offset in offsets {
        if steps_of(offset.0) == steps {
            return true;
        }
    }
    false
}

/// Whether one of the offsets is so many steps from -2 along the rows.
fn is_used_down(offsets: &[(i8, i8)], steps: u32) -> bool
    requires { AreOffsets offsets.now }
    ensures { result ≡ list_any (λ offset. steps_from_least offset.1 == steps) offsets.now }
{
    for offset in offsets {
        if steps_of(offset.1) == steps {
            return true;
        }
    }
    false
}

/// The reach that has no place.
fn nowhere() -> Reach
    ensures { result ≡ nowhere }
{
    let none = Block {
        start: 0,
        length: 0,
    };
    Reach {
        first: none,
        wrapped: none,
    }
}

/// The places at the five offsets, with a block that has them all.
fn together(far_back: Reach, back: Reach, here: Reach, ahead: Reach, far_ahead: Reach) -> Reaches
    requires far_back { IsReachIn (2 ^ 20) far_back }
    requires back { IsReachIn (2 ^ 20) back }
    requires here { IsReachIn (2 ^ 20) here }
    requires ahead { IsReachIn (2 ^ 20) ahead }
    requires far_ahead { IsReachIn (2 ^ 20) far_ahead }
    ensures each { result.each ≡ far_back ∷ back ∷ here ∷ ahead ∷ far_ahead ∷ [] }
    ensures small { All (IsReachIn (2 ^ 20)) result.each }
    ensures hull_small { result.hull.start + result.hull.length ≤ 2 ^ 20 }
    ensures hull { All (IsWithin result.hull) result.each }
{
    let before = around(hull_of(far_back), hull_of(back));
    let after = around(hull_of(ahead), hull_of(far_ahead));
    let hull = around(around(before, hull_of(here)), after);
    Reaches {
        each: [far_back, back, here, ahead, far_ahead],
        hull,
    }
}

/// A block that has all places of a reach.
fn hull_of(reach: Reach) -> Block
    requires { IsReachIn (2 ^ 20) reach }
    ensures small { result.start + result.length ≤ 2 ^ 20 }
    ensures reach { IsWithin result reach }
{
    around(reach.first, reach.wrapped)
}

/// A block that has all places of two.
fn around(one: Block, other: Block) -> Block
    requires one { one.start + one.length ≤ 2 ^ 20 }
    requires other { other.start + other.length ≤ 2 ^ 20 }
    ensures small { result.start + result.length ≤ 2 ^ 20 }
    ensures one { (i : ℕ) → is_held one i ≡ true → is_held result i ≡ true }
    ensures other { (i : ℕ) → is_held other i ≡ true → is_held result i ≡ true }
{
    if one.length == 0 {
        return other;
    }
    if other.length == 0 {
        return one;
    }
    let start = one.start.min(other.start);
    let end = (one.start + one.length).max(other.start + other.length);
    Block {
        start,
        length: end - start,
    }
}

/// The places on a ring of `n` that lie so many steps less two from those of a block.
fn ring_reach(n: u32, block: Block, steps: u32) -> Reach
    requires ring { 1 ≤ n }
    requires few { n ≤ 2 ^ 20 }
    requires steps { steps ≤ 4 }
    requires within { block.start + block.length ≤ n }
    ensures image { IsImage (ring_place n steps) block result }
    ensures within { IsReachIn n result }
{
    let start = (block.start + steps + 2 * n - 2) % n;
    let length = block.length.min(n - start);
    Reach {
        first: Block { start, length },
        wrapped: Block {
            start: 0,
            length: block.length - length,
        },
    }
}

/// The places among `n`, brought to the edges, that lie so many steps less two from those of a block.
fn edge_reach(n: u32, block: Block, steps: u32) -> Reach
    requires row { 1 ≤ n }
    requires few { n ≤ 2 ^ 20 }
    requires steps { steps ≤ 4 }
    requires within { block.start + block.length ≤ n }
    ensures image { IsImage (edge_place n steps) block result }
    ensures within { IsReachIn n result }
{
    if block.length == 0 {
        return nowhere();
    }
    let start = edge_place(n, steps, block.start);
    let last = edge_place(n, steps, block.start + block.length - 1);
    Reach {
        first: Block {
            start,
            length: last + 1 - start,
        },
        wrapped: Block {
            start: 0,
            length: 0,
        },
    }
}

/// The place among `n`, brought to the edges, that lies so many steps less two from a place.
fn edge_place(n: u32, steps: u32, place: u32) -> u32
    requires row { 1 ≤ n }
    requires steps { steps ≤ 4 }
    requires place { place < 2 ^ 20 }
    ensures { result ≡ edge_place n steps place }
{
    (place + steps).saturating_sub(2).min(n - 1)
}
