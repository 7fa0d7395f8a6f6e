//! What PETs send each other where each needs the cells of a list.

ghost use Rattle.std.specs.Prelude.{◌≡◌, ℕ, ◌+◌, ◌*◌, ◌≤◌, ◌<◌, ◌==◌, true, length, slice_index_or, nat_lt, ◌-◌, ◌^◌, if◌then◌else◌};
ghost use Rattle.cpl_route.specs.declared.need.Need.{Need};
ghost use Rattle.cpl_route.specs.Picks.{IsListed, IsPick, is_listed};
ghost use Rattle.cpl_route.specs.Routes.{are_ascending, is_ascending, is_picked, pickers_of};

use crate::need::Need;
use crate::needs::{Needs, Stretch};
use crate::parts::{Parts, parts_of};
use crate::table::Sharing;
use crate::walk::{count_cells, push_cells};
use cpl_base::Memory;
use cpl_grid::{Decomp, Grid};

/// The cells of an ascending list, asked for by the rows and columns of a grid.
#[derive(Drop)]
pub(crate) struct Listed<'a> {
    /// The grid.
    pub grid: Grid,
    /// The list.
    pub cells: &'a [u32],
}

impl Needs for Listed<'_> {
    ghost grid_of = { λ listed. listed.grid };

    ghost is_sound = { λ listed. IsListed listed.grid listed.cells.now };

    ghost is_needed = { λ listed s. is_listed listed.cells.now s };

    fn stretch(&self, row: u32, column: u32, limit: u32) -> Stretch {
        let cell = 1 + row * self.grid.nx + column;
        let place = first_from(self.cells, cell);
        if place >= self.cells.len() {
            return Stretch {
                needed: false,
                end: limit,
            };
        }
        let next = self.cells[place];
        if next > cell {
            return Stretch {
                needed: false,
                end: column + (limit - column).min(next - cell),
            };
        }
        Stretch {
            needed: true,
            end: column + run_from(self.cells, place, limit - column),
        }
    }

    fn alike_to(&self, row: u32, _limit: u32) -> u32 {
        row + 1
    }
}

/// The place of the first number of an ascending list that is at least a cell; the length where there is none.
fn first_from(cells: &[u32], cell: u32) -> usize
    requires { is_ascending 0 cells.now ≡ true }
    ensures within { result ≤ length cells.now }
    ensures before { (k : ℕ) → k < result → slice_index_or cells.now k 0 < cell }
    ensures behind { (k : ℕ) → result ≤ k → k < length cells.now → cell ≤ slice_index_or cells.now k 0 }
{
    cells.partition_point(
        |other: &u32| -> bool
            ensures { result ≡ nat_lt other.now cell }
        { *other < cell },
    )
}

/// How many numbers that follow one another the ascending list has from the one at a place on, at most so many.
fn run_from(cells: &[u32], place: usize, most: u32) -> u32
    requires ascending { is_ascending 0 cells.now ≡ true }
    requires place { place < length cells.now }
    requires most { 1 ≤ most }
    ensures some { 1 ≤ result }
    ensures within { result ≤ most }
    ensures listed { (k : ℕ) → k < result → is_listed cells.now (slice_index_or cells.now place 0 + k) ≡ true }
{
    let first = cells[place];
    let mut run = 1;
    for at in place + 1..cells.len() {
        let ahead = cells[at] - first;
        if ahead > run || run == most {
            break;
        }
        run = run_with(run, ahead);
    }
    run
}

/// A run, longer by a number that is so far ahead of its first, where that comes next.
fn run_with(run: u32, ahead: u32) -> u32
    requires { run < 2 ^ 32 - 1 }
    ensures { result ≡ (if ahead == run then run + 1 else run) }
{
    if ahead == run { run + 1 } else { run }
}

/// Lists of cells, in the order of their PETs and each ascending: each PET gets the cells of its list from their
/// owners.
#[derive(Drop)]
pub(crate) struct Pick<'a> {
    /// Who owns the cells.
    pub src: &'a Decomp,
    /// The lists.
    pub needs: &'a [Need],
    /// The parts of the PETs that own cells.
    pub owners: Parts,
}

/// What PETs send each other where each needs the cells of an ascending list.
pub(crate) fn pick_of<'a>(src: &'a Decomp, needs: &'a [Need]) -> Pick<'a>
    requires { are_ascending needs.now ≡ true }
    ensures sound { IsPick result.src.now result.needs.now result.owners }
    ensures src { result.src.now ≡ src.now }
    ensures needs { result.needs.now ≡ needs.now }
{
    Pick {
        src,
        needs,
        owners: parts_of(src),
    }
}

impl Pick<'_> {
    /// The PET at a place.
    fn pet(&self, place: usize) -> u8
        requires { place < length self.now.needs.now }
        ensures { (other : Need) → result ≡ (slice_index_or self.now.needs.now place other).pet }
    {
        let need = &self.needs[place];
        need.pet
    }

    /// What the PET at a place needs.
    fn listed(&self, place: usize) -> Listed<'_>
        requires sound { IsPick self.now.src.now self.now.needs.now self.now.owners }
        requires place { place < length self.now.needs.now }
        ensures sound { IsListed result.grid result.cells.now }
        ensures grid { result.grid ≡ self.now.src.now.grid }
        ensures cells { (other : Need) → result.cells.now ≡ (slice_index_or self.now.needs.now place other).cells }
    {
        let need = &self.needs[place];
        Listed {
            grid: self.src.grid(),
            cells: need.cells.items(),
        }
    }
}

impl Sharing for Pick<'_> {
    ghost src = { λ pick. pick.src.now };

    ghost is_needed = { λ pick. is_picked pick.needs.now };

    ghost receivers = { λ pick. pickers_of pick.needs.now };

    ghost is_sound = { λ pick. IsPick pick.src.now pick.needs.now pick.owners };

    fn senders(&self) -> (u8, u8) {
        (self.src.first_pet(), self.src.pets())
    }

    fn receiver_count(&self) -> usize {
        self.needs.len()
    }

    fn receiver(&self, place: usize) -> u8 {
        self.pet(place)
    }

    fn push(&self, from: u8, place: usize, out: &mut Vec<u32>) -> Result<(), Memory> {
        let listed = self.listed(place);
        push_cells(
            &listed,
            listed.grid.nx,
            self.owners.part(self.src, from),
            out,
        )?;
        Ok(())
    }

    fn count(&self, from: u8, place: usize) -> u32 {
        let listed = self.listed(place);
        count_cells(&listed, listed.grid.nx, self.owners.part(self.src, from))
    }
}
