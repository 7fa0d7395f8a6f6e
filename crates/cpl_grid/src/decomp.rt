//! A grid that is divided among PETs in blocks: which PET owns a cell, and which cells a PET owns.

ghost use Rattle.std.specs.Prelude.{◌≡◌, ◌≢◌, ◌↔◌, ℕ, ◌+◌, ◌-◌, ◌*◌, ◌/◌, ◌%◌, ◌^◌, ◌<◌, ◌≤◌, length, slice_get, Some, IsOk, IsErr, IfOk, IfErr};
ghost use Rattle.cpl_grid.specs.Grid.{IsCell, IsGrid, cells_in};
ghost use Rattle.cpl_grid.specs.Owners.{IsDivision, IsLayout, IsPartOf, IsPet, cells_of, owner_of, part_of, pets_in};

use crate::blocks::{Part, block_at, holder};
use crate::grid::Grid;
use std::marker::Model;

/// There are not as many blocks as PETs.
#[derive(Clone, Copy, Debug, PartialEq, Eq)]
pub struct BlocksMismatch {
    /// How many blocks there are.
    pub blocks: u64,
    /// How many PETs there are.
    pub pets: u8,
}

/// A grid that is cut into blocks of columns and of rows. Each block belongs to a PET of its own: the
/// blocks are counted along the columns first, and so are the PETs. Of n columns in m blocks the first
/// n mod m blocks have one column more than the others; rows alike. Where there are more blocks than
/// columns or rows some blocks are empty.
#[derive(Debug, Drop)]
pub struct Decomp {
    grid: Grid,
    px: u32,
    py: u32,
    first_pet: u8,
}

impl Model for Decomp {
    ghost use Rattle.cpl_grid.specs.Owners.{IsLayout, Layout};

    ghost Value = { Layout };

    ghost view = { λ d. record { grid = d.grid; px = d.px; py = d.py; first_pet = d.first_pet } };

    ghost invariant = { λ d. IsLayout (record { grid = d.grid; px = d.px; py = d.py; first_pet = d.first_pet }) };
}

impl Decomp {
    /// Cuts a grid into `px` blocks of columns and `py` blocks of rows, one for each of `pets` PETs
    /// from `first_pet` on. Both counts of blocks are from 1 to 2^20, there is a PET, and the last is
    /// at most 63.
    ///
    /// Errors: `BlocksMismatch`, with both numbers, exactly where there are not as many blocks as PETs.
    ///
    /// Source: ESMF Reference Manual, regular decompositions of a DistGrid.
    pub fn new(
        grid: Grid,
        px: u32,
        py: u32,
        first_pet: u8,
        pets: u8,
    ) -> Result<Decomp, BlocksMismatch>
        requires grid { IsGrid grid }
        requires px { (1 ≤ px) × (px ≤ 2 ^ 20) }
        requires py { (1 ≤ py) × (py ≤ 2 ^ 20) }
        requires pets { (1 ≤ pets) × (first_pet + pets ≤ 64) }
        ensures matches { IsOk result ↔ (px * py ≡ pets) }
        ensures layout { IfOk result (λ d. d ≡ record { grid = grid; px = px; py = py; first_pet = first_pet }) }
        ensures mismatch { IsErr result ↔ (px * py ≢ pets) }
        ensures carries { IfErr result (λ e. e ≡ record { blocks = px * py; pets = pets }) }
    {
        let blocks = u64::from(px) * u64::from(py);
        if blocks != u64::from(pets) {
            return Err(BlocksMismatch { blocks, pets });
        }
        Ok(Decomp {
            grid,
            px,
            py,
            first_pet,
        })
    }

    /// The grid.
    ///
    /// Source: this project's own.
    pub fn grid(&self) -> Grid
        ensures value { result ≡ self.now.grid }
        ensures layout { IsLayout self.now }
    {
        self.grid
    }

    /// The PET of the first block, the least that has one.
    ///
    /// Source: this project's own.
    pub fn first_pet(&self) -> u8
        ensures value { result ≡ self.now.first_pet }
        ensures layout { IsLayout self.now }
    {
        self.first_pet
    }

    /// How many PETs have a block: they follow one another from the first on.
    ///
    /// Source: this project's own.
    pub fn pets(&self) -> u8
        ensures value { result ≡ pets_in self.now }
        ensures layout { IsLayout self.now }
    {
        (self.px * self.py) as u8
    }

    /// The columns and the rows of the block of a PET, which is one of the PETs that have a block. Its
    /// cells are those in these columns and rows, one row after the other: the cell in column i and row
    /// j of the block, both from 0, is at the place `i + j * columns.length` among them.
    ///
    /// Source: ESMF Reference Manual, regular decompositions of a DistGrid.
    pub fn part(&self, pet: u8) -> Part
        requires { IsPet self.now pet }
        ensures value { result ≡ part_of self.now pet }
        ensures is_part { IsPartOf self.now pet result }
        ensures layout { IsLayout self.now }
    {
        let block = u32::from(pet - self.first_pet);
        Part {
            columns: block_at(self.grid.nx, self.px, block % self.px),
            rows: block_at(self.grid.ny, self.py, block / self.px),
        }
    }

    /// How many cells a PET owns, which may be none. It is one of the PETs that have a block.
    ///
    /// Source: ESMF Reference Manual, regular decompositions of a DistGrid.
    pub fn count(&self, pet: u8) -> u32
        requires { IsPet self.now pet }
        ensures value { result ≡ length (cells_of self.now pet) }
        ensures within { result ≤ cells_in self.now.grid }
    {
        let part = self.part(pet);
        part.columns.length * part.rows.length
    }

    /// The PET that owns the cell `s`, which is from 1 to the number of cells.
    ///
    /// Source: ESMF Reference Manual, regular decompositions of a DistGrid.
    pub fn owner(&self, s: u32) -> u8
        requires { IsCell self.now.grid s }
        ensures value { result ≡ owner_of self.now s }
        ensures pet { IsPet self.now result }
    {
        let across = holder(self.grid.nx, self.px, (s - 1) % self.grid.nx);
        let down = holder(self.grid.ny, self.py, (s - 1) / self.grid.nx);
        self.first_pet + (across + down * self.px) as u8
    }

    /// The place of the cell `s` among the cells of the PET that owns it, counted from 0: they are
    /// ascending, along the columns of its block first. `s` is from 1 to the number of cells. The PET's
    /// `cell` at that place is `s` again.
    ///
    /// Source: ESMF Reference Manual, sequence indices of the elements of an Array.
    pub fn local(&self, s: u32) -> u32
        requires { IsCell self.now.grid s }
        ensures value { slice_get (cells_of self.now (owner_of self.now s)) result ≡ Some s }
        ensures unique { (k : ℕ) → slice_get (cells_of self.now (owner_of self.now s)) k ≡ Some s → k ≡ result }
        ensures within { result < length (cells_of self.now (owner_of self.now s)) }
    {
        let part = self.part(self.owner(s));
        let column = (s - 1) % self.grid.nx - part.columns.start;
        let row = (s - 1) / self.grid.nx - part.rows.start;
        column + row * part.columns.length
    }

    /// The cell at the place `k` among the cells of a PET, counted from 0. The PET is one of those that
    /// have a block, and `k` is below the count of its cells. The `local` place of that cell is `k` again.
    ///
    /// Source: ESMF Reference Manual, sequence indices of the elements of an Array.
    pub fn cell(&self, pet: u8, k: u32) -> u32
        requires pet { IsPet self.now pet }
        requires place { k < length (cells_of self.now pet) }
        ensures value { slice_get (cells_of self.now pet) k ≡ Some result }
        ensures owner { owner_of self.now result ≡ pet }
        ensures within { IsCell self.now.grid result }
    {
        let part = self.part(pet);
        let column = part.columns.start + k % part.columns.length;
        let row = part.rows.start + k / part.columns.length;
        1 + column + row * self.grid.nx
    }
}

/// What holds of every division: each cell is in the list of one PET, at one place, the lists together
/// are as long as the grid, and what a PET owns are the cells of its part.
///
/// Source: this project's own.
pub fn decomposition_laws(decomp: &Decomp)
    ensures { IsDivision decomp.now }
{
    let _ = decomp.grid();
}
