//! A block of a grid with a ring of places around it.

ghost use Rattle.std.specs.Prelude.{◌≡◌, ◌+◌, ◌*◌, ◌^◌, ◌<◌, ◌≤◌, ◌+ℤ◌, pos, IsTrue, unsigned_abs};
ghost use Rattle.cpl_grid.specs.Grid.{IsCell};
ghost use Rattle.cpl_block.specs.Frames.{IsFrame, IsReached, IsSpot, first_of, home_of, is_ours, is_own, places_in, row_length, span_of, stands_for, step_to};

use cpl_grid::{Grid, Part};

/// A block of the cells of a grid, and how wide the ring of places around it is.
///
/// A field on it has its places row by row, counted from 0: `ry` rows of the ring, then the rows of the block, each with
/// `rx` places of the ring before and after it, then `ry` rows of the ring. A place of the ring stands for the cell that
/// lies there; past the grid's edge for the one that a neighbour at that offset is. The calls ask that the block lies
/// within the grid and has a cell, and that the ring is at most two columns and two rows wide.
///
/// Source: this project's own.
#[derive(Clone, Copy)]
pub struct Frame {
    /// The grid.
    pub grid: Grid,
    /// The columns and the rows of the block.
    pub part: Part,
    /// How many columns the ring has on each side.
    pub rx: u32,
    /// How many rows the ring has above, and how many below.
    pub ry: u32,
}

impl Frame {
    /// How many places a row has.
    ///
    /// Source: this project's own.
    pub fn row_length(&self) -> u32
        requires { IsFrame self.now }
        ensures value { result ≡ row_length self.now }
        ensures few { result ≤ 2 ^ 20 + 4 }
    {
        self.part.columns.length + 2 * self.rx
    }

    /// How many places there are: so long is a field on the block.
    ///
    /// Source: this project's own.
    pub fn places(&self) -> u32
        requires { IsFrame self.now }
        ensures value { result ≡ places_in self.now }
        ensures few { result ≤ 2 ^ 24 }
    {
        self.row_length() * (self.part.rows.length + 2 * self.ry)
    }

    /// The place that lies `dx` columns and `dy` rows from that of the block's first cell, which is where the run of an
    /// input at that offset begins. The offset leads no further than the ring.
    ///
    /// Source: this project's own.
    pub fn first(&self, dx: i8, dy: i8) -> u32
        requires frame { IsFrame self.now }
        requires offset { IsReached self.now dx dy }
        ensures value { result ≡ first_of self.now dx dy }
        ensures within { result < places_in self.now }
    {
        shifted(self.ry, dy) * self.row_length() + shifted(self.rx, dx)
    }

    /// How far behind the place of the block's first cell that of the cell in column `a` and row `b` of the block lies,
    /// both counted from 0. At each offset it is the same.
    ///
    /// Source: this project's own.
    pub fn step_to(&self, a: u32, b: u32) -> u32
        requires frame { IsFrame self.now }
        requires spot { IsSpot self.now a b }
        ensures value { result ≡ step_to self.now a b }
        ensures within { result < span_of self.now }
    {
        b * self.row_length() + a
    }

    /// How many places one sweep over the block covers, from its first cell to its last. Places of the ring that lie
    /// between its rows are among them.
    ///
    /// Source: this project's own.
    pub fn span(&self) -> u32
        requires { IsFrame self.now }
        ensures value { result ≡ span_of self.now }
        ensures within { result ≤ places_in self.now }
    {
        (self.part.rows.length - 1) * self.row_length() + self.part.columns.length
    }

    /// The cell that a place stands for.
    ///
    /// Source: this project's own.
    #[tactic(auto, unfolding(crate::specs::Frames::stands_for))]
    pub fn stands_for(&self, place: u32) -> u32
        requires frame { IsFrame self.now }
        requires place { place < places_in self.now }
        ensures value { result ≡ stands_for self.now place }
        ensures cell { IsCell self.now.grid result }
    {
        let row_length = self.row_length();
        let column = self.part.columns.start + 1 + place % row_length;
        let row = self.part.rows.start + 1 + place / row_length;
        let column = self.grid.column_to(column, -(self.rx as i8));
        let row = self.grid.row_to(row, -(self.ry as i8));
        column + (row - 1) * self.grid.nx
    }

    /// The place of a cell of the block.
    ///
    /// Source: this project's own.
    #[tactic(auto, unfolding(crate::specs::Frames::home_of))]
    pub fn home(&self, s: u32) -> u32
        requires frame { IsFrame self.now }
        requires cell { IsCell self.now.grid s }
        requires ours { IsTrue (is_ours self.now s) }
        ensures value { result ≡ home_of self.now s }
        ensures within { result < places_in self.now }
    {
        let column = (s - 1) % self.grid.nx - self.part.columns.start;
        let row = (s - 1) / self.grid.nx - self.part.rows.start;
        (row + self.ry) * self.row_length() + column + self.rx
    }

    /// Whether a place is one of the block, not of the ring.
    ///
    /// Source: this project's own.
    #[tactic(auto, unfolding(crate::specs::Frames::is_own))]
    pub fn is_own(&self, place: u32) -> bool
        requires { IsFrame self.now }
        ensures { result ≡ is_own self.now place }
    {
        let column = place % self.row_length();
        let row = place / self.row_length();
        self.rx <= column
            && column < self.rx + self.part.columns.length
            && self.ry <= row
            && row < self.ry + self.part.rows.length
    }

    /// Whether a cell is one of the block.
    ///
    /// Source: this project's own.
    #[tactic(auto, unfolding(crate::specs::Frames::is_ours))]
    pub fn is_ours(&self, s: u32) -> bool
        requires frame { IsFrame self.now }
        requires cell { IsCell self.now.grid s }
        ensures { result ≡ is_ours self.now s }
    {
        let column = (s - 1) % self.grid.nx;
        let row = (s - 1) / self.grid.nx;
        let columns = self.part.columns;
        let rows = self.part.rows;
        columns.start <= column
            && column < columns.start + columns.length
            && rows.start <= row
            && row < rows.start + rows.length
    }
}

/// The sum of a ring's width and an offset that leads no further.
fn shifted(ring: u32, offset: i8) -> u32
    requires ring { ring ≤ 2 }
    requires offset { unsigned_abs offset ≤ ring }
    ensures value { result ≡ unsigned_abs (pos ring +ℤ offset) }
    ensures few { result ≤ 2 * ring }
{
    (i64::from(ring) + i64::from(offset)) as u32
}
