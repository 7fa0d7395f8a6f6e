//! Routes worked out by hand, and routes over random decompositions beside a plain reading of their definition.

ghost use Rattle.std.specs.Prelude.{◌≡◌, ◌≢◌, ◌+◌, ◌*◌, ◌<◌, ◌≤◌, IfOk};
ghost use Rattle.cpl_grid.specs.Grid.{cells_in};
ghost use Rattle.cpl_route.specs.Routes.{ArePetsDistinct, AreOffsets};

use crate::plain::{Sent, over_all_pairs, plain_halo, plain_pick, plain_redist, told};
use cpl_base::Many;
use cpl_grid::{Decomp, Grid};
use cpl_route::{Need, Route, RouteFault, are_ascending, route_examples, route_laws};
use std::alloc::Global;
use std::process::Abort;
use std::test::Fail;

/// Numbers that look random.
#[derive(Drop)]
struct Draws {
    state: u64,
}

impl Draws {
    /// A number from `low` to `high`.
    fn between(&mut self, low: u32, high: u32) -> u32
        requires order { low ≤ high }
        requires small { high < 1000 }
        ensures from { low ≤ result }
        ensures to { result ≤ high }
    {
        self.state = self
            .state
            .wrapping_mul(6_364_136_223_846_793_005)
            .wrapping_add(1_442_695_040_888_963_407);
        let drawn = (self.state >> 33) as u32;
        low + drawn % (high - low + 1)
    }
}

/// A grid of `nx` columns and `ny` rows on `px` by `py` PETs from one on.
fn divided(
    nx: u32,
    ny: u32,
    periodic: bool,
    px: u32,
    py: u32,
    first_pet: u8,
) -> Result<Decomp, Fail>
    requires columns { (1 ≤ nx) × (nx ≤ 100) }
    requires rows { (1 ≤ ny) × (ny ≤ 100) }
    requires px { (1 ≤ px) × (px ≤ 4) }
    requires py { (1 ≤ py) × (py ≤ 4) }
    requires first { first_pet ≤ 40 }
    ensures { IfOk result (λ decomp. cells_in decomp.grid ≡ nx * ny) }
{
    let grid = Grid { nx, ny, periodic };
    let decomp = Decomp::new(grid, px, py, first_pet, (px * py) as u8)?;
    Ok(decomp)
}

/// Compares what a route tells with what it has to be.
fn compare(rt: &impl Abort, alloc: Global, route: &Route, want: &[Sent]) -> Result<(), Fail> {
    let have = told(alloc, route)?;
    assert_eq!(rt; have.as_slice(), want);
    assert_eq!(rt; route.total(), want.len() as u64);
    let last = route.pairs().iter().map(|pair| pair.1).max().unwrap_or(0);
    assert_eq!(rt; over_all_pairs(route, last), want.len());
    for (from, to) in route.pairs() {
        assert!(rt; !route.cells(*from, *to).is_empty());
    }
    Ok(())
}

/// Compares the redistribution between two decomposed grids of equal numbers of cells with the plain reading.
fn compare_redist(rt: &impl Abort, alloc: Global, src: &Decomp, dst: &Decomp) -> Result<(), Fail>
    requires { cells_in src.now.grid ≡ cells_in dst.now.grid }
{
    let want = plain_redist(alloc, src, dst)?;
    let route = Route::redist(alloc, src, dst)?;
    assert_eq!(rt; Route::redist_total(src, dst), want.len() as u64);
    assert_eq!(rt; want.len() as u64, u64::from(src.grid().cells()));
    compare(rt, alloc, &route, want.as_slice())
}

/// Compares a halo with the plain reading.
fn compare_halo(
    rt: &impl Abort,
    alloc: Global,
    decomp: &Decomp,
    offsets: &[(i8, i8)],
) -> Result<(), Fail>
    requires { AreOffsets offsets.now }
{
    let want = plain_halo(alloc, decomp, offsets)?;
    let route = Route::halo(alloc, decomp, offsets)?;
    assert_eq!(rt; Route::halo_total(decomp, offsets), want.len() as u64);
    compare(rt, alloc, &route, want.as_slice())
}

/// Compares a route by lists with the plain reading.
fn compare_pick(rt: &impl Abort, alloc: Global, src: &Decomp, needs: &[Need]) -> Result<(), Fail>
    requires { ArePetsDistinct needs.now }
{
    let want = plain_pick(alloc, src, needs)?;
    let route = Route::pick(alloc, src, needs)?;
    if are_ascending(needs) {
        assert_eq!(rt; Route::pick_total(src, needs), want.len() as u64);
    }
    compare(rt, alloc, &route, want.as_slice())
}

/// What a PET needs.
fn need(alloc: Global, pet: u8, cells: &[u32]) -> Result<Need, Fail>
    ensures { IfOk result (λ need. need.pet ≡ pet) }
{
    let cells = cells.to_vec(alloc)?;
    Ok(Need {
        pet,
        cells: Many::of(cells),
    })
}

/// Three lists of distinct PETs.
fn three(first: Need, second: Need, third: Need) -> [Need; 3]
    requires first { first.pet ≢ second.pet }
    requires second { second.pet ≢ third.pet }
    requires third { first.pet ≢ third.pet }
    ensures { ArePetsDistinct result }
{
    [first, second, third]
}

#[test]
fn worked_redistributions(rt: HostRuntime) -> Result<(), Fail> {
    let alloc = rt.alloc();
    route_examples();
    route_laws();
    let five = divided(5, 1, false, 3, 1, 0)?;
    let on_two = divided(5, 1, false, 2, 1, 1)?;
    let route = Route::redist(alloc, &five, &on_two)?;
    assert_eq!(rt; route.pairs(), [(0, 1), (1, 1), (1, 2), (2, 2)].as_slice());
    assert_eq!(rt; route.cells(0, 1), [1, 2].as_slice());
    assert_eq!(rt; route.cells(1, 1), [3].as_slice());
    assert_eq!(rt; route.cells(1, 2), [4].as_slice());
    assert_eq!(rt; route.cells(2, 2), [5].as_slice());
    assert_eq!(rt; route.cells(2, 1), [].as_slice());
    assert_eq!(rt; route.cells(255, 255), [].as_slice());
    assert_eq!(rt; route.total(), 5);
    let six = divided(6, 1, false, 2, 1, 0)?;
    let three_by_two = divided(3, 2, false, 3, 1, 0)?;
    let route = Route::redist(alloc, &six, &three_by_two)?;
    let want = [
        (0, 0, 1),
        (0, 1, 2),
        (0, 2, 3),
        (1, 0, 4),
        (1, 1, 5),
        (1, 2, 6),
    ];
    compare(&rt, alloc, &route, want.as_slice())?;
    let differs = Route::redist(alloc, &five, &six).err();
    assert_eq!(rt; differs, Some(RouteFault::SizeDiffers { src: 5, dst: 6 }));
    Ok(())
}

#[test]
fn worked_halos(rt: HostRuntime) -> Result<(), Fail> {
    let alloc = rt.alloc();
    let ring = divided(3, 1, true, 3, 1, 0)?;
    let route = Route::halo(alloc, &ring, &[(1, 0), (-2, 0)])?;
    compare(
        &rt,
        alloc,
        &route,
        [(0, 2, 1), (1, 0, 2), (2, 1, 3)].as_slice(),
    )?;
    let alone = divided(3, 1, true, 1, 1, 5)?;
    let route = Route::halo(alloc, &alone, &[(1, 0)])?;
    compare(&rt, alloc, &route, [].as_slice())?;
    let column = divided(1, 4, true, 1, 2, 8)?;
    let route = Route::halo(alloc, &column, &[(0, 2), (2, -1)])?;
    let want = [(8, 9, 2), (9, 8, 3), (9, 8, 4)];
    compare(&rt, alloc, &route, want.as_slice())?;
    let corner = divided(2, 2, false, 2, 2, 0)?;
    let route = Route::halo(alloc, &corner, &[(1, 1)])?;
    let want = [(3, 0, 4), (3, 1, 4), (3, 2, 4)];
    compare(&rt, alloc, &route, want.as_slice())?;
    let none = Route::halo(alloc, &corner, &[])?;
    compare(&rt, alloc, &none, [].as_slice())?;
    Ok(())
}

#[test]
fn worked_picks(rt: HostRuntime) -> Result<(), Fail> {
    let alloc = rt.alloc();
    let five = divided(5, 1, false, 2, 1, 0)?;
    let needs = three(
        need(alloc, 7, &[5, 1, 5, 9, 0])?,
        need(alloc, 3, &[4])?,
        need(alloc, 255, &[])?,
    );
    assert!(rt; !are_ascending(&needs));
    let route = Route::pick(alloc, &five, &needs)?;
    let want = [(0, 7, 1), (1, 3, 4), (1, 7, 5)];
    compare(&rt, alloc, &route, want.as_slice())?;
    let ascending = three(
        need(alloc, 0, &[1, 1, 2])?,
        need(alloc, 1, &[2, 3, 4, 6])?,
        need(alloc, 200, &[3])?,
    );
    assert!(rt; are_ascending(&ascending));
    assert_eq!(rt; Route::pick_total(&five, &ascending), 6);
    compare_pick(&rt, alloc, &five, &ascending)?;
    let none = Route::pick(alloc, &five, &[])?;
    compare(&rt, alloc, &none, [].as_slice())?;
    Ok(())
}

#[test]
fn random_redistributions(rt: HostRuntime) -> Result<(), Fail> {
    let alloc = rt.alloc();
    let mut draws = Draws { state: 1 };
    for _ in 0..60 {
        let nx = draws.between(1, 9);
        let ny = draws.between(1, 9);
        let (px, py) = (draws.between(1, 4), draws.between(1, 4));
        let src = divided(nx, ny, false, px, py, draws.between(0, 40) as u8)?;
        let (px, py) = (draws.between(1, 4), draws.between(1, 4));
        let dst = divided(nx, ny, true, px, py, draws.between(0, 40) as u8)?;
        compare_redist(&rt, alloc, &src, &dst)?;
        let turned = divided(ny, nx, false, py, px, draws.between(0, 40) as u8)?;
        compare_redist(&rt, alloc, &src, &turned)?;
        let row = divided(nx * ny, 1, false, px, 1, draws.between(0, 40) as u8)?;
        compare_redist(&rt, alloc, &row, &dst)?;
        let column = divided(1, nx * ny, false, 1, py, draws.between(0, 40) as u8)?;
        compare_redist(&rt, alloc, &turned, &column)?;
    }
    Ok(())
}

#[test]
fn random_halos(rt: HostRuntime) -> Result<(), Fail> {
    let alloc = rt.alloc();
    let mut draws = Draws { state: 2 };
    let shapes = [
        [(1, 0), (-1, 0), (0, 1), (0, -1)],
        [(2, 0), (-2, 1), (0, -2), (0, 0)],
        [(1, 1), (-1, -1), (2, 2), (-2, -2)],
        [(0, 1), (0, 1), (1, 2), (-2, 0)],
    ];
    for round in 0..200u32 {
        let nx = draws.between(1, 9);
        let ny = draws.between(1, 9);
        let (px, py) = (draws.between(1, 4), draws.between(1, 4));
        let decomp = divided(nx, ny, round % 2 == 0, px, py, draws.between(0, 40) as u8)?;
        let offsets = shapes[(round % 4) as usize];
        compare_halo(&rt, alloc, &decomp, offsets.as_slice())?;
    }
    Ok(())
}

#[test]
fn random_picks(rt: HostRuntime) -> Result<(), Fail> {
    let alloc = rt.alloc();
    let mut draws = Draws { state: 3 };
    for _ in 0..50 {
        let nx = draws.between(1, 9);
        let ny = draws.between(1, 9);
        let (px, py) = (draws.between(1, 4), draws.between(1, 4));
        let src = divided(nx, ny, false, px, py, draws.between(0, 40) as u8)?;
        let mut cells = Vec::new(alloc);
        for _ in 0..draws.between(0, 30) {
            cells.push(draws.between(1, nx * ny))?;
        }
        let first = need(alloc, draws.between(0, 63) as u8, cells.as_slice())?;
        let second = need(alloc, draws.between(64, 90) as u8, &[1, 2, 3, 4, 5])?;
        cells.push(draws.between(1, nx * ny))?;
        let third = need(alloc, draws.between(91, 255) as u8, cells.as_slice())?;
        let needs = three(second, third, first);
        compare_pick(&rt, alloc, &src, &needs)?;
    }
    Ok(())
}
