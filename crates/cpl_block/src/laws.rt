//! Laws: what holds of the places of every block, stated by calls that do nothing.

ghost use Rattle.std.specs.Prelude.{◌≡◌};
ghost use Rattle.cpl_grid.specs.Parts.{whole_part};
ghost use Rattle.cpl_block.specs.Frames.{IsFrame};
ghost use Rattle.cpl_block.specs.Laws.{IsAlone, IsFraming, IsInRows};

use crate::frame::Frame;
use cpl_grid::{numbering_laws, part_laws};

/// What holds of the places of every block: a place at a constant shift from a cell's own stands for the neighbour at that
/// offset, runs of places at a shift lie within, and the block's places are the homes of its cells.
///
/// Source: this project's own.
pub fn frame_laws(frame: &Frame)
    requires { IsFrame frame.now }
    ensures { IsFraming frame.now }
{
    numbering_laws(&frame.grid);
    part_laws(&frame.grid);
}

/// What holds of a block that is the whole grid: its cells are all of the grid's, and each is its own, so that none of its
/// places waits for a parcel.
///
/// Source: this project's own.
pub fn whole_laws(frame: &Frame)
    requires frame { IsFrame frame.now }
    requires whole { frame.now.part ≡ whole_part frame.now.grid }
    ensures { IsAlone frame.now }
{
    numbering_laws(&frame.grid);
    part_laws(&frame.grid);
}

/// What holds of the values of a field on a block: those of its cells are its rows, end to end, and each row is a run.
///
/// Source: this project's own.
pub fn row_laws(frame: &Frame)
    requires { IsFrame frame.now }
    ensures { IsInRows frame.now }
{
    numbering_laws(&frame.grid);
}
