//! Routes read plainly off their definition: every sender, every receiver, every cell.

ghost use Rattle.std.specs.Prelude.{◌≡◌};
ghost use Rattle.cpl_grid.specs.Grid.{cells_in};
ghost use Rattle.cpl_route.specs.Routes.{AreOffsets};

use cpl_base::Memory;
use cpl_grid::Decomp;
use cpl_route::{Need, Route};
use std::alloc::Global;

/// A cell that one PET sends another.
pub type Sent = (u8, u8, u32);

/// The bit of a PET.
fn bit(pet: u8) -> u64 {
    1 << (pet % 64)
}

/// What a redistribution sends, by sender, receiver and cell.
pub fn plain_redist(alloc: Global, src: &Decomp, dst: &Decomp) -> Result<Vec<Sent>, Memory>
    requires { cells_in src.now.grid ≡ cells_in dst.now.grid }
{
    let mut owned = Vec::new(alloc);
    for s in 1..src.grid().cells() + 1 {
        owned.push((src.owner(s), dst.owner(s), s))?;
    }
    let mut sent = Vec::new(alloc);
    for from in 0..64 {
        for to in 0..64 {
            for (owner, receiver, s) in &owned {
                if *owner == from && *receiver == to {
                    sent.push((from, to, *s))?;
                }
            }
        }
    }
    Ok(sent)
}

/// The PETs that own a cell which has this one for a neighbour.
fn needers(decomp: &Decomp, offsets: &[(i8, i8)], s: u32) -> u64
    requires { AreOffsets offsets.now }
{
    let grid = decomp.grid();
    let mut pets = 0;
    for t in 1..grid.cells() + 1 {
        for offset in offsets {
            if grid.neighbour(t, offset.0, offset.1) == s {
                pets |= bit(decomp.owner(t));
            }
        }
    }
    pets
}

/// What a halo sends, by sender, receiver and cell.
pub fn plain_halo(alloc: Global, decomp: &Decomp, offsets: &[(i8, i8)]) -> Result<Vec<Sent>, Memory>
    requires { AreOffsets offsets.now }
{
    let mut needed = Vec::new(alloc);
    for s in 1..decomp.grid().cells() + 1 {
        needed.push((decomp.owner(s), needers(decomp, offsets, s), s))?;
    }
    let mut sent = Vec::new(alloc);
    for from in 0..64 {
        for to in 0..64 {
            for (owner, pets, s) in &needed {
                if *owner == from && from != to && *pets & bit(to) != 0 {
                    sent.push((from, to, *s))?;
                }
            }
        }
    }
    Ok(sent)
}

/// What is sent where each PET needs the cells of a list, by sender, receiver and cell.
pub fn plain_pick(alloc: Global, src: &Decomp, needs: &[Need]) -> Result<Vec<Sent>, Memory> {
    let mut sent = Vec::new(alloc);
    for from in 0..64 {
        for to in 0..=255u8 {
            for need in needs {
                for s in 1..src.grid().cells() + 1 {
                    if need.pet == to && src.owner(s) == from && need.cells.items().contains(&s) {
                        sent.push((from, to, s))?;
                    }
                }
            }
        }
    }
    Ok(sent)
}

/// What a route sends, as its calls tell it: by pair, and within a pair as the cells stand.
pub fn told(alloc: Global, route: &Route) -> Result<Vec<Sent>, Memory> {
    let mut sent = Vec::new(alloc);
    for (from, to) in route.pairs() {
        for s in route.cells(*from, *to) {
            sent.push((*from, *to, *s))?;
        }
    }
    Ok(sent)
}

/// How many cells a route has over all pairs of a PET below 64 and a PET up to a last one, also those that aren't
/// among its pairs.
pub fn over_all_pairs(route: &Route, last: u8) -> usize {
    let mut count: usize = 0;
    for from in 0..64 {
        for to in 0..=last {
            count = count.saturating_add(route.cells(from, to).len());
        }
    }
    count
}
