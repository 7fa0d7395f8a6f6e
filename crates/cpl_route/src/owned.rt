//! What a PET owns of a grid, found from a grid of as many cells.

ghost use Rattle.std.specs.Prelude.{◌+◌, ◌-◌, ◌*◌, ◌≤◌, ◌<◌};
ghost use Rattle.cpl_route.specs.Kept.{IsOwned};
ghost use Rattle.cpl_route.specs.Places.{IsStretch};
ghost use Rattle.cpl_route.specs.Routes.{is_owned};

use crate::needs::{Needs, Stretch, block_stretch, holds};
use cpl_grid::{Decomp, Grid, Part, numbering_laws};

/// The cells that a PET owns of a decomposed grid, asked for by the rows and columns of a grid that may have another
/// shape. Where both have as many columns, rows and columns are the same; elsewhere a stretch costs a division.
#[derive(Drop)]
pub(crate) struct Owned<'a> {
    /// Who owns the cells.
    pub dst: &'a Decomp,
    /// The PET.
    pub to: u8,
    /// Its part.
    pub part: Part,
    /// The grid by whose rows and columns it is asked.
    pub grid: Grid,
}

impl Needs for Owned<'_> {
    ghost grid_of = { λ owned. owned.grid };

    ghost is_sound = { λ owned. IsOwned owned.dst.now owned.to owned.part owned.grid };

    ghost is_needed = { λ owned s. is_owned owned.dst.now owned.to s };

    fn stretch(&self, row: u32, column: u32, limit: u32) -> Stretch {
        let width = self.dst.grid().nx;
        if self.grid.nx == width {
            return self.in_row(row, column, limit);
        }
        let place = row * self.grid.nx + column;
        let there = place % width;
        let found = self.in_row(place / width, there, width.min(there + (limit - column)));
        Stretch {
            needed: found.needed,
            end: column + (found.end - there),
        }
    }

    fn alike_to(&self, row: u32, limit: u32) -> u32 {
        numbering_laws(&self.dst.grid());
        if self.grid.nx == self.dst.grid().nx {
            block_stretch(self.part.rows, row, limit).end
        } else {
            row + 1
        }
    }
}

impl Owned<'_> {
    /// From a column on, columns of a row of the decomposed grid that are owned or not alike.
    fn in_row(&self, row: u32, column: u32, limit: u32) -> Stretch
        requires sound { IsOwned self.now.dst.now self.now.to self.now.part self.now.grid }
        requires row { row < self.now.dst.now.grid.ny }
        requires column { column < limit }
        requires limit { limit ≤ self.now.dst.now.grid.nx }
        ensures { IsStretch (is_owned self.now.dst.now self.now.to) self.now.dst.now.grid.nx row column limit result }
    {
        numbering_laws(&self.dst.grid());
        if holds(self.part.rows, row) {
            block_stretch(self.part.columns, column, limit)
        } else {
            Stretch {
                needed: false,
                end: limit,
            }
        }
    }
}
