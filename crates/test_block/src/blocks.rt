//! Places against neighbours, and values that are refilled, put and summed.

ghost use Rattle.std.specs.Prelude.{IfSome};
ghost use Rattle.cpl_block.specs.Frames.{IsFrame};

use cpl_block::{Frame, aim_of, block_examples, greatest, least, put, refill, ring_of, sum};
use cpl_grid::{Block, Grid, Part};
use std::alloc::Global;
use std::process::Abort;
use std::test::Fail;

/// The offsets of at most two.
const OFFSETS: [i8; 5] = [-2, -1, 0, 1, 2];

/// A block of a small grid with its ring, or nothing where there is no cell or the block isn't within.
fn framed(grid: Grid, columns: (u32, u32), rows: (u32, u32), ring: (u32, u32)) -> Option<Frame>
    ensures { IfSome result (λ frame. IsFrame frame) }
{
    let (left, width) = columns;
    let (top, height) = rows;
    let (rx, ry) = ring;
    if grid.nx < 1 || grid.nx > 9 || grid.ny < 1 || grid.ny > 9 || rx > 2 || ry > 2 {
        return None;
    }
    if width < 1 || width > grid.nx || left > grid.nx - width {
        return None;
    }
    if height < 1 || height > grid.ny || top > grid.ny - height {
        return None;
    }
    Some(Frame {
        grid,
        part: Part {
            columns: Block {
                start: left,
                length: width,
            },
            rows: Block {
                start: top,
                length: height,
            },
        },
        rx,
        ry,
    })
}

/// Compares the places at all offsets from a cell's own with the cell's neighbours.
fn compare_cell(rt: &impl Abort, frame: &Frame, a: u32, b: u32)
    requires { IsFrame frame.now }
{
    let grid = frame.grid;
    let column = frame.part.columns.start.saturating_add(a);
    let row = frame.part.rows.start.saturating_add(b);
    let cell = row
        .saturating_mul(grid.nx)
        .saturating_add(column)
        .saturating_add(1);
    assert!(rt; a < frame.part.columns.length);
    assert!(rt; b < frame.part.rows.length);
    assert!(rt; cell >= 1);
    assert!(rt; cell <= grid.cells());
    assert!(rt; frame.is_ours(cell));
    for dy in &OFFSETS {
        for dx in &OFFSETS {
            if u32::from(dx.unsigned_abs()) <= frame.rx
                && u32::from(dy.unsigned_abs()) <= frame.ry
            {
                let place = frame.first(*dx, *dy).saturating_add(frame.step_to(a, b));
                assert!(rt; place < frame.places());
                assert_eq!(rt; frame.stands_for(place), grid.neighbour(cell, *dx, *dy));
            }
        }
    }
    let home = frame.home(cell);
    assert_eq!(rt; home, frame.first(0, 0).saturating_add(frame.step_to(a, b)));
}

/// Compares all cells of a block.
fn compare_block(rt: &impl Abort, frame: &Frame)
    requires { IsFrame frame.now }
{
    for b in 0..frame.part.rows.length {
        for a in 0..frame.part.columns.length {
            compare_cell(rt, frame, a, b);
        }
    }
}

/// Compares all blocks of a grid, with rings of all widths.
fn compare_grid(rt: &impl Abort, grid: Grid) {
    for left in 0..grid.nx {
        for top in 0..grid.ny {
            compare_corner(rt, grid, left, top);
        }
    }
}

/// Compares all blocks of a grid that begin at a column and a row, counted from 0.
fn compare_corner(rt: &impl Abort, grid: Grid, left: u32, top: u32) {
    for width in 1..4 {
        for height in 1..4 {
            compare_rings(rt, grid, (left, width), (top, height));
        }
    }
}

/// Compares a block of a grid, with rings of all widths.
fn compare_rings(rt: &impl Abort, grid: Grid, columns: (u32, u32), rows: (u32, u32)) {
    for rx in 0..3 {
        for ry in 0..3 {
            if let Some(frame) = framed(grid, columns, rows, (rx, ry)) {
                compare_block(rt, &frame);
            }
        }
    }
}

/// Refills a ring and puts a parcel of two cells, and compares all places, the sum, the least and the greatest.
fn compare_values(
    rt: &impl Abort,
    alloc: Global,
    frame: &Frame,
    parcel: [(u32, i64); 2],
    before: &[i64],
    after: &[i64],
    totals: (i128, i64, i64),
) -> Result<(), Fail>
    requires { IsFrame frame.now }
{
    let [(first, one), (second, other)] = parcel;
    let mut places = Vec::from_elem(alloc, 0, before.len())?;
    let field = places.as_mut_slice();
    assert!(rt; first <= second);
    assert!(rt; field.len() == before.len());
    assert!(rt; field.len() == frame.places() as usize);
    field.copy_from_slice(before);
    let ring = ring_of(alloc, frame)?;
    refill(frame, &ring, field);
    let aim = aim_of(alloc, frame, &[first, second])?;
    put(frame, &aim, &[one, other], field);
    assert_eq!(rt; &*field, after);
    let (total, least_one, greatest_one) = totals;
    assert_eq!(rt; sum(frame, field), total);
    assert_eq!(rt; least(frame, field), least_one);
    assert_eq!(rt; greatest(frame, field), greatest_one);
    Ok(())
}

/// A grid of so many columns and rows.
fn grid(nx: u32, ny: u32, periodic: bool) -> Grid {
    Grid { nx, ny, periodic }
}

#[test]
fn blocks(rt: HostRuntime) -> Result<(), Fail> {
    let alloc = rt.alloc();
    block_examples();
    for nx in 1..4 {
        for ny in 1..4 {
            compare_grid(&rt, grid(nx, ny, true));
            compare_grid(&rt, grid(nx, ny, false));
        }
    }
    let Some(corner) = framed(grid(3, 2, false), (0, 2), (0, 1), (1, 1)) else {
        panic!(rt; "no frame");
    };
    let before = [0, 1, 2, 3, 4, 50, -60, 7, 8, 9, 10, 11];
    let after = [50, 50, -60, 300, 50, 50, -60, 300, 8, 9, 10, 600];
    let parcel = [(3, 300), (6, 600)];
    compare_values(&rt, alloc, &corner, parcel, &before, &after, (-10, -60, 50))?;
    let Some(ring) = framed(grid(2, 1, true), (0, 2), (0, 1), (2, 0)) else {
        panic!(rt; "no frame");
    };
    let most = i64::MAX;
    let before = [0, 0, most, most, 0, 0];
    let parcel = [(1, 5), (2, 6)];
    compare_values(
        &rt,
        alloc,
        &ring,
        parcel,
        &before,
        &[most; 6],
        (18_446_744_073_709_551_614, most, most),
    )?;
    let Some(one) = framed(grid(1, 1, true), (0, 1), (0, 1), (1, 1)) else {
        panic!(rt; "no frame");
    };
    let before = [0, 0, 0, 0, -7, 0, 0, 0, 0];
    compare_values(
        &rt,
        alloc,
        &one,
        [(1, 5), (1, 6)],
        &before,
        &[-7; 9],
        (-7, -7, -7),
    )?;
    let Some(middle) = framed(grid(3, 1, true), (1, 1), (0, 1), (2, 0)) else {
        panic!(rt; "no frame");
    };
    let parcel = [(1, 10), (3, 30)];
    compare_values(
        &rt,
        alloc,
        &middle,
        parcel,
        &[1, 2, 3, 4, 5],
        &[30, 10, 3, 30, 10],
        (3, 3, 3),
    )?;
    Ok(())
}
