//! A grid of cells, and the neighbours of a cell.

ghost use Rattle.std.specs.Prelude.{◌≡◌, ℕ, ◌^◌, ◌<◌, ◌≤◌, ◌+ℤ◌, ◌≤ℤ◌, neg_ℤ, pos};
ghost use Rattle.cpl_grid.specs.Grid.{IsCell, IsColumn, IsGrid, IsNumbering, IsOffset, IsRow, cells_in, column_at, nearest_number, neighbour_of, ring_number, row_at};

/// A grid of `nx` columns and `ny` rows, whose columns may be a ring.
///
/// Its cells are counted from 1, along the columns first, by their sequence indices: the cell in
/// column i and row j, from 1 too, has `i + (j - 1) * nx`. The calls below ask that `nx` and `ny` are
/// at least 1 and that there are at most 2^20 cells.
#[derive(Clone, Copy, Debug, PartialEq, Eq)]
pub struct Grid {
    /// How many columns there are.
    pub nx: u32,
    /// How many rows there are.
    pub ny: u32,
    /// Whether the first column follows the last.
    pub periodic: bool,
}

impl Grid {
    /// How many cells there are.
    ///
    /// Source: ESMF Reference Manual, sequence indices of the elements of an Array.
    pub fn cells(&self) -> u32
        requires { IsGrid self.now }
        ensures { result ≡ cells_in self.now }
    {
        self.nx * self.ny
    }

    /// The cell that lies `dx` columns and `dy` rows from the cell `s`, which is from 1 to the number of
    /// cells; both offsets are from -2 to 2. Where the grid is periodic the columns are a ring, of one
    /// or two columns too. Elsewhere, and always among the rows, a place past an edge is brought to the
    /// edge.
    ///
    /// Source: this project's own.
    pub fn neighbour(&self, s: u32, dx: i8, dy: i8) -> u32
        requires grid { IsGrid self.now }
        requires cell { IsCell self.now s }
        requires dx { IsOffset dx }
        requires dy { IsOffset dy }
        ensures value { result ≡ neighbour_of self.now s dx dy }
        ensures within { IsCell self.now result }
    {
        let column = self.column_to((s - 1) % self.nx + 1, dx);
        let row = self.row_to((s - 1) / self.nx + 1, dy);
        column + (row - 1) * self.nx
    }

    /// The column, from 1 to `nx`, that lies `dx` columns from the column `i`, which is counted from 1
    /// too and may lie past the last one. Where the grid is periodic the columns are a ring; elsewhere a
    /// column past an edge is brought to the edge.
    ///
    /// Source: this project's own.
    pub fn column_to(&self, i: u32, dx: i8) -> u32
        requires { IsGrid self.now }
        ensures value { result ≡ column_at self.now (pos i +ℤ dx) }
        ensures within { IsColumn self.now result }
    {
        let column = i64::from(i) + i64::from(dx);
        if self.periodic {
            ring_number(self.nx, column)
        } else {
            nearest_number(self.nx, column)
        }
    }

    /// The row, from 1 to `ny`, that lies `dy` rows from the row `j`, which is counted from 1 too and
    /// may lie past the last one. A row past an edge is brought to the edge.
    ///
    /// Source: this project's own.
    pub fn row_to(&self, j: u32, dy: i8) -> u32
        requires { IsGrid self.now }
        ensures value { result ≡ row_at self.now (pos j +ℤ dy) }
        ensures within { IsRow self.now result }
    {
        nearest_number(self.ny, i64::from(j) + i64::from(dy))
    }
}

/// What holds of the cells of every grid: index, column and row are inverse of each other, and a
/// neighbour lies in its column and its row, of which each depends on its own offset alone.
///
/// Source: this project's own.
pub fn numbering_laws(grid: &Grid)
    requires { IsGrid grid.now }
    ensures { IsNumbering grid.now }
{}

/// Of the numbers from 1 to `n`, the one nearest to `z`.
#[tactic(auto, unfolding(crate::specs::Grid::nearest_number))]
fn nearest_number(n: u32, z: i64) -> u32
    requires { 1 ≤ n }
    ensures value { result ≡ nearest_number n z }
    ensures from_one { 1 ≤ result }
    ensures within { result ≤ n }
{
    z.clamp(1, i64::from(n)) as u32
}

/// Of the numbers from 1 to `n`, the one that `z` comes to on a ring of `n`.
#[tactic(auto, unfolding(crate::specs::Grid::ring_number))]
fn ring_number(n: u32, z: i64) -> u32
    requires ring { 1 ≤ n }
    requires above { neg_ℤ (pos (2 ^ 32)) ≤ℤ z }
    ensures value { result ≡ ring_number n z }
    ensures from_one { 1 ≤ result }
    ensures within { result ≤ n }
{
    1 + (z - 1).rem_euclid(i64::from(n)) as u32
}
