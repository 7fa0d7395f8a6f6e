//! The numbers of cells, as fields of a block.

ghost use Rattle.std.specs.Prelude.{◌≡◌, length, pos};
ghost use Rattle.cpl_base.specs.Numbers.{IsValue};
ghost use Rattle.cpl_block.specs.Frames.{IsFrame, places_in};
ghost use Rattle.cpl_comp.specs.Readings.{whole};
ghost use Rattle.cpl_grid.specs.Grid.{IsCell, IsGrid, column_of, row_of};
ghost use Rattle.cpl_rule.specs.Numbered.{IsNumbered};

use crate::moment::whole;
use cpl_block::Frame;
use cpl_grid::Grid;

/// Writes the column, the row and the sequence index of the cell that each place of a block stands for, in millionths. These
/// are the fields that stand behind those of a component. Takes no memory.
///
/// Source: this project's own.
pub fn write_numbers(frame: &Frame, columns: &mut [i64], rows: &mut [i64], cells: &mut [i64])
    requires frame { IsFrame frame.now }
    requires columns { length columns.old ≡ places_in frame.now }
    requires rows { length rows.old ≡ places_in frame.now }
    requires cells { length cells.old ≡ places_in frame.now }
    ensures columns { IsNumbered frame.now (λ s. whole (pos (column_of frame.now.grid s))) columns.new }
    ensures rows { IsNumbered frame.now (λ s. whole (pos (row_of frame.now.grid s))) rows.new }
    ensures cells { IsNumbered frame.now (λ s. whole (pos s)) cells.new }
{
    for place in 0..columns.len() {
        let s = frame.stands_for(place as u32);
        columns[place] = column(&frame.grid, s);
        rows[place] = row(&frame.grid, s);
        cells[place] = index(s);
    }
}

/// The column of a cell, in millionths.
fn column(grid: &Grid, s: u32) -> i64
    requires grid { IsGrid grid.now }
    requires cell { IsCell grid.now s }
    ensures value { result ≡ whole (pos (column_of grid.now s)) }
    ensures within { IsValue result }
{
    whole(i64::from((s - 1) % grid.nx + 1))
}

/// The row of a cell, in millionths.
fn row(grid: &Grid, s: u32) -> i64
    requires grid { IsGrid grid.now }
    requires cell { IsCell grid.now s }
    ensures value { result ≡ whole (pos (row_of grid.now s)) }
    ensures within { IsValue result }
{
    whole(i64::from((s - 1) / grid.nx + 1))
}

/// The sequence index of a cell, in millionths.
fn index(s: u32) -> i64
    ensures value { result ≡ whole (pos s) }
    ensures within { IsValue result }
{
    whole(i64::from(s))
}
