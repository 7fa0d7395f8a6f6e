//! The needed cells of a part of a grid, walked by rows. No step is taken for a cell that isn't needed, and none
//! divides.

ghost use Rattle.std.specs.Prelude.{◌≡◌, ◌+◌, ◌-◌, ◌*◌, ◌≤◌, ◌<◌, ◌^◌, ◌++◌, [], length, drop, take, filter, IfOk, if◌then◌else◌};
ghost use Rattle.std.specs.List.{All, range_with_len};
ghost use Rattle.cpl_grid.specs.Grid.{IsGrid};
ghost use Rattle.cpl_grid.specs.Parts.{IsPart, cells_of_part};
ghost use Rattle.cpl_route.specs.Places.{AreRowsAlike, in_rows, needed_in_row, needed_in_rows};

use crate::needs::Needs;
use cpl_base::Memory;
use cpl_grid::{Block, Part};

/// Appends the cells of a part that are needed, ascending. The grid has `nx` columns.
pub(crate) fn push_cells<N: Needs>(
    needs: &N,
    nx: u32,
    part: Part,
    out: &mut Vec<u32>,
) -> Result<(), Memory>
    requires sound { N.is_sound needs.now }
    requires grid { IsGrid (N.grid_of needs.now) }
    requires columns { nx ≡ (N.grid_of needs.now).nx }
    requires part { IsPart (N.grid_of needs.now) part }
    ensures { IfOk result (λ _. out.new.items ≡ out.old.items ++ filter (N.is_needed needs.now) (cells_of_part (N.grid_of needs.now) part)) }
{
    let end = part.rows.start + part.rows.length;
    let mut row = part.rows.start;
    while row < end {
        let next = needs.alike_to(row, end);
        push_alike(needs, nx, part.columns, row, next - row, out)?;
        row = next;
    }
    Ok(())
}

/// How many cells of a part are needed. The grid has `nx` columns.
pub(crate) fn count_cells<N: Needs>(needs: &N, nx: u32, part: Part) -> u32
    requires sound { N.is_sound needs.now }
    requires grid { IsGrid (N.grid_of needs.now) }
    requires columns { nx ≡ (N.grid_of needs.now).nx }
    requires part { IsPart (N.grid_of needs.now) part }
    ensures value { result ≡ length (filter (N.is_needed needs.now) (cells_of_part (N.grid_of needs.now) part)) }
    ensures few { result ≤ 2 ^ 20 }
{
    let end = part.rows.start + part.rows.length;
    let mut row = part.rows.start;
    let mut total = 0;
    while row < end {
        let next = needs.alike_to(row, end);
        total += (next - row) * count_row(needs, nx, part.columns, row);
        row = next;
    }
    total
}

/// Appends the needed cells of `rows` rows that are alike.
fn push_alike<N: Needs>(
    needs: &N,
    nx: u32,
    columns: Block,
    row: u32,
    rows: u32,
    out: &mut Vec<u32>,
) -> Result<(), Memory>
    requires sound { N.is_sound needs.now }
    requires grid { IsGrid (N.grid_of needs.now) }
    requires columns { nx ≡ (N.grid_of needs.now).nx }
    requires within { columns.start + columns.length ≤ nx }
    requires some { 1 ≤ rows }
    requires rows { row + rows ≤ (N.grid_of needs.now).ny }
    requires alike { AreRowsAlike (N.is_needed needs.now) nx row (row + rows) }
    ensures { IfOk result (λ _. out.new.items ≡ out.old.items ++ needed_in_rows (N.is_needed needs.now) nx columns row rows) }
{
    let before = out.len();
    push_row(needs, nx, columns, row, out)?;
    copy_down(nx, before, rows - 1, out)?;
    Ok(())
}

/// Appends the needed cells of a row.
fn push_row<N: Needs>(
    needs: &N,
    nx: u32,
    columns: Block,
    row: u32,
    out: &mut Vec<u32>,
) -> Result<(), Memory>
    requires sound { N.is_sound needs.now }
    requires grid { IsGrid (N.grid_of needs.now) }
    requires columns { nx ≡ (N.grid_of needs.now).nx }
    requires within { columns.start + columns.length ≤ nx }
    requires row { row < (N.grid_of needs.now).ny }
    ensures { IfOk result (λ _. out.new.items ≡ out.old.items ++ needed_in_row (N.is_needed needs.now) nx columns row) }
{
    let first = 1 + row * nx;
    let end = columns.start + columns.length;
    let mut column = columns.start;
    while column < end {
        let stretch = needs.stretch(row, column, end);
        push_stretch(stretch.needed, first + column, stretch.end - column, out)?;
        column = stretch.end;
    }
    Ok(())
}

/// How many cells of a row are needed.
fn count_row<N: Needs>(needs: &N, nx: u32, columns: Block, row: u32) -> u32
    requires sound { N.is_sound needs.now }
    requires grid { IsGrid (N.grid_of needs.now) }
    requires columns { nx ≡ (N.grid_of needs.now).nx }
    requires within { columns.start + columns.length ≤ nx }
    requires row { row < (N.grid_of needs.now).ny }
    ensures value { result ≡ length (needed_in_row (N.is_needed needs.now) nx columns row) }
    ensures few { result ≤ nx }
{
    let end = columns.start + columns.length;
    let mut column = columns.start;
    let mut total = 0;
    while column < end {
        let stretch = needs.stretch(row, column, end);
        total += counted(stretch.needed, stretch.end - column);
        column = stretch.end;
    }
    total
}

/// A number where it counts, else 0.
fn counted(counts: bool, number: u32) -> u32
    ensures { result ≡ (if counts then number else 0) }
{
    if counts { number } else { 0 }
}

/// Appends cells that follow one another, where they are needed.
fn push_stretch(needed: bool, first: u32, length: u32, out: &mut Vec<u32>) -> Result<(), Memory>
    requires { first + length < 2 ^ 32 }
    ensures { IfOk result (λ _. out.new.items ≡ out.old.items ++ (if needed then range_with_len first length else [])) }
{
    if needed {
        for cell in first..first + length {
            out.push(cell)?;
        }
    }
    Ok(())
}

/// Appends the cells behind the place `from` again, as they are in each of `more` further rows.
fn copy_down(nx: u32, from: usize, more: u32, out: &mut Vec<u32>) -> Result<(), Memory>
    requires place { from ≤ length out.old.items }
    requires few { length out.old.items ≤ from + 2 ^ 20 }
    requires fits { All (λ s. s + more * nx < 2 ^ 32) (drop from out.old.items) }
    ensures { IfOk result (λ _. out.new.items ≡ take from out.old.items ++ in_rows nx (drop from out.old.items) (more + 1)) }
{
    let copies = more as usize * (out.len() - from);
    for k in 0..copies {
        let cell = out[from + k];
        out.push(cell + nx)?;
    }
    Ok(())
}
