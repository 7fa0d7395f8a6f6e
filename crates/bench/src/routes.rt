//! Routes of a grid of 1,024 by 1,024 cells on 8 by 8 PETs, and plain passes that write as many numbers.

ghost use Rattle.std.specs.Prelude.{◌≡◌, ◌*◌, IfOk};
ghost use Rattle.cpl_grid.specs.Grid.{cells_in};

use cpl_base::Memory;
use cpl_grid::{BlocksMismatch, Decomp, Grid};
use cpl_route::{Route, RouteFault};
use std::alloc::Global;

/// A cell and its four neighbours.
const FOUR: [(i8, i8); 4] = [(1, 0), (-1, 0), (0, 1), (0, -1)];

/// The grid on so many by so many PETs.
pub fn divided(px: u32, py: u32) -> Result<Decomp, BlocksMismatch>
    requires { px * py ≡ 64 }
    ensures { IfOk result (λ decomp. cells_in decomp.grid ≡ 1048576) }
{
    let grid = Grid {
        nx: 1_024,
        ny: 1_024,
        periodic: false,
    };
    Decomp::new(grid, px, py, 0, 64)
}

/// How many cells are sent in so many redistributions.
pub fn redist_sum(
    alloc: Global,
    src: &Decomp,
    dst: &Decomp,
    rounds: u64,
) -> Result<i64, RouteFault> {
    let mut sum = 0i64;
    for _ in 0..rounds {
        let route = Route::redist(alloc, src, dst)?;
        sum = sum.wrapping_add(total(&route));
    }
    Ok(sum)
}

/// How many cells are sent in so many halos.
pub fn halo_sum(alloc: Global, decomp: &Decomp, rounds: u64) -> Result<i64, Memory> {
    let mut sum = 0i64;
    for _ in 0..rounds {
        let route = Route::halo(alloc, decomp, &FOUR)?;
        sum = sum.wrapping_add(total(&route));
    }
    Ok(sum)
}

/// How many numbers are written in so many passes of this many each.
pub fn written_sum(alloc: Global, count: u32, rounds: u64) -> Result<i64, Memory> {
    let mut sum = 0i64;
    for round in 0..rounds {
        let numbers = written(alloc, count, round)?;
        sum = sum.wrapping_add(length(numbers.as_slice()));
    }
    Ok(sum)
}

/// So many numbers that follow one another.
#[inline(never)]
fn written(alloc: Global, count: u32, round: u64) -> Result<Vec<u32>, Memory> {
    let mut numbers = Vec::with_capacity(alloc, count as usize)?;
    for number in 0..count {
        numbers.push(number ^ (round & 1) as u32)?;
    }
    Ok(numbers)
}

/// How many cells a route sends.
fn total(route: &Route) -> i64 {
    route.total().min(1 << 40) as i64
}

/// How many numbers there are.
fn length(numbers: &[u32]) -> i64 {
    numbers.len().min(1 << 40) as i64
}
