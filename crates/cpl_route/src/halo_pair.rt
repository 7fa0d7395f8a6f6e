//! What a PET needs for its halo: the neighbours of its cells that aren't its own, by rows and columns.

ghost use Rattle.std.specs.Prelude.{◌≡◌, ◌&&◌, [], filter, IsTrue};
ghost use Rattle.cpl_grid.specs.Grid.{IsOffset};
ghost use Rattle.cpl_grid.specs.Owners.{IsPet};
ghost use Rattle.cpl_grid.specs.Parts.{IsPart, cells_of_part};
ghost use Rattle.cpl_route.specs.Reach.{IsSound, is_met, is_reached, reach_for};
ghost use Rattle.cpl_route.specs.Routes.{AreOffsets, is_halo};

use crate::needs::{Needs, Stretch, block_stretch, holds};
use crate::reach::Reaches;
use cpl_grid::{Decomp, Part, numbering_laws};

/// What one PET needs for its halo, and where the neighbours of its cells lie.
#[derive(Clone, Copy)]
pub(crate) struct HaloPair<'a> {
    /// Which PET owns which cells.
    pub decomp: &'a Decomp,
    /// Where the neighbours of a cell lie: so many columns and so many rows from it.
    pub offsets: &'a [(i8, i8)],
    /// The PET.
    pub pet: u8,
    /// What it owns.
    pub part: Part,
    /// The columns at each offset from its own.
    pub columns: Reaches,
    /// The rows at each offset from its own.
    pub rows: Reaches,
}

impl<'a> HaloPair<'a> {
    /// What a PET needs for a halo with these offsets, which are from -2 to 2. It takes no memory.
    pub fn new(decomp: &'a Decomp, offsets: &'a [(i8, i8)], pet: u8) -> HaloPair<'a>
        requires pet { IsPet decomp.now pet }
        requires offsets { AreOffsets offsets.now }
        ensures sound { IsSound result }
        ensures decomp { result.decomp.now ≡ decomp.entry.now }
        ensures offsets { result.offsets.now ≡ offsets.entry.now }
        ensures pet { result.pet ≡ pet }
    {
        let grid = decomp.grid();
        numbering_laws(&grid);
        let part = decomp.part(pet);
        HaloPair {
            decomp,
            offsets,
            pet,
            part,
            columns: Reaches::of_columns(grid, part.columns, offsets),
            rows: Reaches::of_rows(grid, part.rows, offsets),
        }
    }

    /// Whether none of the cells of a part is needed, by a few comparisons: it is what the PET owns, or
    /// outside a box around all that can be reached. It may be false of other such parts.
    pub fn is_far(&self, part: Part) -> bool
        requires sound { IsSound self.now }
        requires part { IsPart self.now.decomp.now.grid part }
        ensures { let test = is_halo self.now.decomp.now self.now.offsets.now self.now.pet in
            IsTrue result → filter test (cells_of_part self.now.decomp.now.grid part) ≡ [] }
    {
        if self.columns.misses(part.columns) {
            return true;
        }
        if self.rows.misses(part.rows) {
            return true;
        }
        part == self.part
    }

    /// Whether a neighbour of a cell of the PET lies in a row and a column.
    fn meets(&self, row: u32, column: u32) -> bool
        requires { IsSound self.now }
        ensures { result ≡ is_met self.now.columns self.now.rows self.now.offsets.now row column }
    {
        for offset in self.offsets {
            if self.lies_at(*offset, row, column) {
                return true;
            }
        }
        false
    }

    /// Whether a row and a column are those of cells at an offset from the PET's.
    fn lies_at(&self, offset: (i8, i8), row: u32, column: u32) -> bool
        requires sound { IsSound self.now }
        requires across { IsOffset offset.0 }
        requires down { IsOffset offset.1 }
        ensures { result ≡ (is_reached (reach_for self.now.columns offset.0) column
            && is_reached (reach_for self.now.rows offset.1) row) }
    {
        let (dx, dy) = offset;
        self.columns.holds(dx, column) && self.rows.holds(dy, row)
    }
}

impl Needs for HaloPair<'_> {
    ghost use Rattle.cpl_route.specs.Reach.{IsSound};
    ghost use Rattle.cpl_route.specs.Routes.{is_halo};

    ghost grid_of = { λ h. h.decomp.now.grid };

    ghost is_sound = { λ h. IsSound h };

    ghost is_needed = { λ h s. is_halo h.decomp.now h.offsets.now h.pet s };

    fn stretch(&self, row: u32, column: u32, limit: u32) -> Stretch {
        if !holds(self.rows.hull, row) {
            return Stretch {
                needed: false,
                end: limit,
            };
        }
        let near = block_stretch(self.columns.hull, column, limit);
        if !near.needed {
            return near;
        }
        let own = block_stretch(self.part.columns, column, limit);
        if own.needed && holds(self.part.rows, row) {
            return Stretch {
                needed: false,
                end: own.end,
            };
        }
        let end = self.columns.stretch_end(column, own.end);
        Stretch {
            needed: self.meets(row, column),
            end,
        }
    }

    fn alike_to(&self, row: u32, limit: u32) -> u32 {
        let near = block_stretch(self.rows.hull, row, limit);
        if !near.needed {
            return near.end;
        }
        let own = block_stretch(self.part.rows, row, limit);
        self.rows.stretch_end(row, own.end)
    }
}
