//! What one PET needs of a grid, as the code asks for it: by stretches of a row, and by rows that are alike.

ghost use Rattle.std.specs.Prelude.{◌≡◌, ℕ, ◌+◌, ◌≤◌, ◌<◌, ◌^◌, Bool};
ghost use Rattle.cpl_grid.specs.declared.grid.Grid.{Grid};
ghost use Rattle.cpl_route.specs.Places.{AreAlike, IsStretch, is_held};

use cpl_grid::Block;

/// Columns of a row that are all needed, or all not.
#[derive(Clone, Copy)]
pub(crate) struct Stretch {
    /// Whether they are needed.
    pub needed: bool,
    /// The column behind the last.
    pub end: u32,
}

/// Which cells of a grid one PET needs. Rows and columns are counted from 0.
pub(crate) trait Needs {
    /// The grid.
    ghost grid_of: { Self → Grid };

    /// What the calls below rest on.
    ghost is_sound: { Self → Type 0 };

    /// Whether a cell, by its sequence index, is needed.
    ghost is_needed: { Self → ℕ → Bool };

    /// From a column on, up to `limit` at most, columns of a row that are needed or not alike.
    fn stretch(&self, row: u32, column: u32, limit: u32) -> Stretch
        requires sound { is_sound self.now }
        requires row { row < (grid_of self.now).ny }
        requires column { column < limit }
        requires limit { limit ≤ (grid_of self.now).nx }
        ensures { IsStretch (is_needed self.now) (grid_of self.now).nx row column limit result };

    /// From a row on, up to `limit` at most, the end of the rows in which the same columns are needed.
    fn alike_to(&self, row: u32, limit: u32) -> u32
        requires sound { is_sound self.now }
        requires row { row < limit }
        requires limit { limit ≤ (grid_of self.now).ny }
        ensures { AreAlike (is_needed self.now) (grid_of self.now).nx row limit result };
}

/// From a place on, up to `limit` at most, places that a block holds or doesn't hold alike.
pub(crate) fn block_stretch(block: Block, place: u32, limit: u32) -> Stretch
    requires fits { block.start + block.length < 2 ^ 32 }
    requires place { place < limit }
    ensures some { place < result.end }
    ensures within { result.end ≤ limit }
    ensures same { (i : ℕ) → place ≤ i → i < result.end → is_held block i ≡ result.needed }
{
    let end = block.start + block.length;
    if place < block.start {
        Stretch {
            needed: false,
            end: block.start.min(limit),
        }
    } else if place < end {
        Stretch {
            needed: true,
            end: end.min(limit),
        }
    } else {
        Stretch {
            needed: false,
            end: limit,
        }
    }
}

/// Whether a block holds a place.
pub(crate) fn holds(block: Block, place: u32) -> bool
    requires { block.start + block.length < 2 ^ 32 }
    ensures { result ≡ is_held block place }
{
    place >= block.start && place < block.start + block.length
}
