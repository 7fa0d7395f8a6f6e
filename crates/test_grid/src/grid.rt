//! Blocks with and without cells, parts, neighbours, and all divisions of small grids against plain
//! walks.

ghost use Rattle.std.specs.Prelude.{◌≡◌, ◌*◌, ◌<◌, ◌≤◌, IfSome, length};
ghost use Rattle.cpl_grid.specs.Grid.{IsCell, IsGrid};
ghost use Rattle.cpl_grid.specs.Owners.{IsPet, cells_of, part_of};
ghost use Rattle.cpl_grid.specs.Parts.{part_cell};

use cpl_grid::{
    Block, BlocksMismatch, Decomp, Grid, Part, decomposition_laws, grid_examples, numbering_laws,
    part_laws,
};
use std::process::Abort;
use std::test::Fail;

/// A grid of at most five columns and five rows.
fn small(nx: u32, ny: u32, periodic: bool) -> Grid
    requires columns { (1 ≤ nx) × (nx ≤ 5) }
    requires rows { (1 ≤ ny) × (ny ≤ 5) }
    ensures grid { IsGrid result }
    ensures nx { result.nx ≡ nx }
    ensures ny { result.ny ≡ ny }
{
    Grid { nx, ny, periodic }
}

/// The block that holds a place, by a walk over the blocks.
fn walked(n: u32, m: u32, place: u32) -> u32
    requires { 1 ≤ m }
{
    let mut left = place;
    for b in 0..m {
        let length = if b < n % m { n / m + 1 } else { n / m };
        if left < length {
            return b;
        }
        left -= length;
    }
    m
}

/// The place of the cell at a place of a PET: that place again.
fn place_again(decomp: &Decomp, pet: u8, k: u32) -> u32
    requires pet { IsPet decomp.now pet }
    requires place { k < length (cells_of decomp.now pet) }
    ensures { result ≡ k }
{
    decomp.local(decomp.cell(pet, k))
}

/// The cell at the place of a cell: that cell again.
fn cell_again(decomp: &Decomp, s: u32) -> u32
    requires { IsCell decomp.now.grid s }
    ensures { result ≡ s }
{
    decomp.cell(decomp.owner(s), decomp.local(s))
}

/// The cell in a column and a row of the part of a PET, both from 0.
fn cell_in_part(decomp: &Decomp, pet: u8, i: u32, j: u32) -> Option<u32>
    requires { IsPet decomp.now pet }
    ensures { IfSome result (λ s. s ≡ part_cell decomp.now.grid (part_of decomp.now pet) i j) }
{
    let part = decomp.part(pet);
    if i < part.columns.length && j < part.rows.length {
        Some(decomp.cell(pet, i + j * part.columns.length))
    } else {
        None
    }
}

/// Compares each answer about a cell with what a walk over all cells finds, and gives how many cells
/// the walk found for each PET.
fn compare_cells(rt: &impl Abort, decomp: &Decomp, px: u32, py: u32, first_pet: u8) -> [u32; 64]
    requires columns { decomp.now.px ≡ px }
    requires rows { decomp.now.py ≡ py }
    requires first { decomp.now.first_pet ≡ first_pet }
{
    let grid = decomp.grid();
    let mut found = [0; 64];
    for s in 1..grid.cells() + 1 {
        let across = walked(grid.nx, px, (s - 1) % grid.nx);
        let down = walked(grid.ny, py, (s - 1) / grid.nx);
        let pet = decomp.owner(s);
        let block = u64::from(across) + u64::from(down) * u64::from(px);
        assert_eq!(rt; u64::from(pet), u64::from(first_pet) + block);
        let slot = &mut found[usize::from(pet)];
        let place = *slot;
        let count = decomp.count(pet);
        assert_eq!(rt; decomp.local(s), place);
        assert!(rt; place < count);
        assert_eq!(rt; decomp.cell(pet, place), s);
        assert_eq!(rt; place_again(decomp, pet, place), place);
        assert_eq!(rt; cell_again(decomp, s), s);
        *slot = place.saturating_add(1);
    }
    found
}

/// Compares the count of each PET with what a walk over all cells found.
fn compare_counts(rt: &impl Abort, decomp: &Decomp, first_pet: u8, pets: u8, found: &[u32; 64])
    requires pets { decomp.now.px * decomp.now.py ≡ pets }
    requires first { decomp.now.first_pet ≡ first_pet }
{
    for (pet, owned) in found.iter().enumerate() {
        let pet = pet as u8;
        if pet >= first_pet && pet - first_pet < pets {
            assert_eq!(rt; decomp.count(pet), *owned);
        } else {
            assert_eq!(rt; *owned, 0);
        }
    }
}

/// The part of these columns and rows.
fn part(columns: (u32, u32), rows: (u32, u32)) -> Part {
    let (left, width) = columns;
    let (top, height) = rows;
    Part {
        columns: Block {
            start: left,
            length: width,
        },
        rows: Block {
            start: top,
            length: height,
        },
    }
}

/// Walks the part of a PET row by row, and compares each cell with the one at its place in the PET's
/// list.
fn compare_walk(rt: &impl Abort, decomp: &Decomp, pet: u8)
    requires { IsPet decomp.now pet }
{
    let grid = decomp.grid();
    let part = decomp.part(pet);
    let count = decomp.count(pet);
    let mut k: u32 = 0;
    for j in 0..part.rows.length {
        for i in 0..part.columns.length {
            let row = u64::from(part.rows.start + j);
            let column = u64::from(part.columns.start + i);
            assert!(rt; k < count);
            let cell = decomp.cell(pet, k);
            assert_eq!(rt; u64::from(cell), 1 + column + row * u64::from(grid.nx));
            assert_eq!(rt; cell_in_part(decomp, pet, i, j), Some(cell));
            k = k.saturating_add(1);
        }
    }
    assert_eq!(rt; k, count);
}

/// Walks the part of each PET.
fn compare_walks(rt: &impl Abort, decomp: &Decomp) {
    let first_pet = decomp.first_pet();
    for pet in first_pet..first_pet + decomp.pets() {
        compare_walk(rt, decomp, pet);
    }
}

/// Compares all divisions of a grid into at most six by six blocks, which end with the last PET.
fn compare_divisions(rt: &impl Abort, grid: Grid)
    requires { IsGrid grid }
{
    for px in 1..7 {
        for py in 1..7 {
            let pets = (px * py) as u8;
            let first_pet = 64 - pets;
            let made = Decomp::new(grid, px, py, first_pet, pets);
            assert!(rt; made.is_ok());
            if let Ok(decomp) = made {
                let found = compare_cells(rt, &decomp, px, py, first_pet);
                compare_counts(rt, &decomp, first_pet, pets, &found);
                assert_eq!(rt; decomp.first_pet(), first_pet);
                assert_eq!(rt; decomp.pets(), pets);
                compare_walks(rt, &decomp);
            }
        }
    }
}

#[test]
fn blocks_of_one_one_and_no_cells(rt: HostRuntime) -> Result<(), Fail> {
    let grid = small(2, 1, false);
    let decomp = Decomp::new(grid, 3, 1, 0, 3)?;
    assert_eq!(rt; decomp.grid(), grid);
    assert_eq!(rt; decomp.count(0), 1);
    assert_eq!(rt; decomp.count(1), 1);
    assert_eq!(rt; decomp.count(2), 0);
    assert_eq!(rt; decomp.owner(2), 1);
    assert_eq!(rt; decomp.local(2), 0);
    assert_eq!(rt; decomp.cell(1, 0), 2);
    assert_eq!(rt;
        Decomp::new(grid, 3, 1, 0, 2).err(),
        Some(BlocksMismatch { blocks: 3, pets: 2 })
    );
    assert_eq!(rt;
        Decomp::new(grid, 1_048_576, 1_048_576, 0, 64).err(),
        Some(BlocksMismatch {
            blocks: 1 << 40,
            pets: 64
        })
    );
    decomposition_laws(&decomp);
    part_laws(&grid);
    numbering_laws(&grid);
    grid_examples();
    Ok(())
}

#[test]
fn parts(rt: HostRuntime) -> Result<(), Fail> {
    let five = Decomp::new(small(5, 1, true), 3, 1, 4, 3)?;
    assert_eq!(rt; five.first_pet(), 4);
    assert_eq!(rt; five.pets(), 3);
    assert_eq!(rt; five.part(4), part((0, 2), (0, 1)));
    assert_eq!(rt; five.part(5), part((2, 2), (0, 1)));
    assert_eq!(rt; five.part(6), part((4, 1), (0, 1)));
    let two = Decomp::new(small(2, 2, false), 3, 1, 0, 3)?;
    assert_eq!(rt; two.part(1), part((1, 1), (0, 2)));
    assert_eq!(rt; two.part(2), part((2, 0), (0, 2)));
    let both = Decomp::new(small(4, 3, false), 3, 2, 58, 6)?;
    assert_eq!(rt; both.first_pet(), 58);
    assert_eq!(rt; both.pets(), 6);
    assert_eq!(rt; both.part(58), part((0, 2), (0, 2)));
    assert_eq!(rt; both.part(59), part((2, 1), (0, 2)));
    assert_eq!(rt; both.part(61), part((0, 2), (2, 1)));
    assert_eq!(rt; both.part(63), part((3, 1), (2, 1)));
    Ok(())
}

#[test]
fn columns_and_rows(rt: HostRuntime) {
    let ring = small(5, 3, true);
    let plain = small(5, 3, false);
    for (i, dx, on_ring, on_plain) in [
        (1, 0, 1, 1),
        (1, -1, 5, 1),
        (2, -2, 5, 1),
        (4, 2, 1, 5),
        (3, 2, 5, 5),
        (7, -2, 5, 5),
        (7, 0, 2, 5),
        (0, 0, 5, 1),
        (4_294_967_295, 127, 2, 5),
    ] {
        assert_eq!(rt; ring.column_to(i, dx), on_ring, "at {i} {dx}");
        assert_eq!(rt; plain.column_to(i, dx), on_plain, "at {i} {dx}");
    }
    for (j, dy, row) in [
        (1, 0, 1),
        (1, -1, 1),
        (2, -2, 1),
        (2, 1, 3),
        (2, 2, 3),
        (5, -1, 3),
        (0, 0, 1),
        (4_294_967_295, -128, 3),
    ] {
        assert_eq!(rt; ring.row_to(j, dy), row, "at {j} {dy}");
        assert_eq!(rt; plain.row_to(j, dy), row, "at {j} {dy}");
    }
    let one = small(1, 2, true);
    for dx in [-2, -1, 0, 1, 2] {
        assert_eq!(rt; one.column_to(1, dx), 1, "at {dx}");
    }
}

#[test]
fn neighbours(rt: HostRuntime) {
    let ring = small(3, 2, true);
    let plain = small(3, 2, false);
    assert_eq!(rt; ring.cells(), 6);
    for (s, dx, dy, on_ring, on_plain) in [
        (1, 1, 0, 2, 2),
        (1, -2, 0, 2, 1),
        (3, 1, 0, 1, 3),
        (3, -2, 0, 1, 1),
        (4, -1, -1, 3, 1),
        (6, 2, 1, 5, 6),
        (2, 0, -2, 2, 2),
        (2, 0, 2, 5, 5),
    ] {
        assert_eq!(rt; ring.neighbour(s, dx, dy), on_ring);
        assert_eq!(rt; plain.neighbour(s, dx, dy), on_plain);
    }
    let one = small(1, 1, true);
    for dx in [-2, -1, 0, 1, 2] {
        assert_eq!(rt; one.neighbour(1, dx, dx), 1);
    }
}

#[test]
fn corners(rt: HostRuntime) {
    let ring = small(3, 2, true);
    let plain = small(3, 2, false);
    for (s, dx, dy, on_ring, on_plain) in [
        (1, -1, -1, 3, 1),
        (3, 1, -1, 1, 3),
        (4, -1, 1, 6, 4),
        (6, 1, 1, 4, 6),
        (1, -1, 2, 6, 4),
    ] {
        assert_eq!(rt; ring.neighbour(s, dx, dy), on_ring);
        assert_eq!(rt; plain.neighbour(s, dx, dy), on_plain);
    }
    let column = small(1, 3, true);
    assert_eq!(rt; column.neighbour(2, -2, -1), 1);
    assert_eq!(rt; column.neighbour(2, 1, 2), 3);
}

#[test]
fn all_small_divisions(rt: HostRuntime) {
    for nx in 1..6 {
        for ny in 1..6 {
            compare_divisions(&rt, small(nx, ny, false));
        }
    }
}
