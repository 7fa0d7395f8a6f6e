//! Blocks of places in a row, and parts of a grid: a block of its columns and one of its rows.

ghost use Rattle.std.specs.Prelude.{◌≡◌, ◌+◌, ◌^◌, ◌<◌, ◌≤◌};
ghost use Rattle.cpl_grid.specs.Blocks.{Holds, block_at, holder, lengths};
ghost use Rattle.cpl_grid.specs.Grid.{indices};
ghost use Rattle.cpl_grid.specs.Parts.{ListsPart, cells_of_part, whole_part};
ghost use Rattle.cpl_grid.specs.declared.blocks.Part.{Part};

use crate::grid::Grid;

/// Places in a row that follow one another, counted from 0.
#[derive(Clone, Copy, Debug, PartialEq, Eq)]
pub struct Block {
    /// The first place.
    pub start: u32,
    /// How many places there are, which may be none.
    pub length: u32,
}

/// The cells of a grid in a block of its columns and a block of its rows, both counted from 0.
#[derive(Clone, Copy, Debug, PartialEq, Eq)]
pub struct Part {
    /// The columns.
    pub columns: Block,
    /// The rows.
    pub rows: Block,
}

/// What holds of the cells of every part of a grid, its rows end to end: there are as many as the
/// product of the two lengths, and the cell in column i and row j of the part, both from 0, is at the
/// place `i + j * columns.length`. Those of the whole grid are all its cells, ascending.
///
/// Source: this project's own.
pub fn part_laws(grid: &Grid)
    ensures lists { (part : Part) → ListsPart (cells_of_part grid.now part) grid.now part }
    ensures whole { cells_of_part grid.now (whole_part grid.now) ≡ indices grid.now }
{}

/// The places of block `b` of `m` blocks of `n` places.
pub fn block_at(n: u32, m: u32, b: u32) -> Block
    requires places { n ≤ 2 ^ 20 }
    requires block { b < m }
    ensures value { result ≡ block_at n m b }
    ensures within { result.start + result.length ≤ n }
{
    let even = n / m;
    let longer = n % m;
    Block {
        start: b * even + b.min(longer),
        length: if b < longer { even + 1 } else { even },
    }
}

/// Which of `m` blocks of `n` places holds a place.
pub fn holder(n: u32, m: u32, place: u32) -> u32
    requires places { n ≤ 2 ^ 20 }
    requires place { place < n }
    requires blocks { 1 ≤ m }
    ensures value { result ≡ holder (lengths n m) place }
    ensures within { result < m }
    ensures holds { Holds (block_at n m result) place }
{
    let even = n / m;
    let longer = n % m;
    let in_longer = longer * (even + 1);
    if place < in_longer {
        place / (even + 1)
    } else {
        longer + (place - in_longer) / even
    }
}
