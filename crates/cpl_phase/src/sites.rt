//! The cells of a block and their places, as lists.

ghost use Rattle.std.specs.Prelude.{◌≡◌, ◌<◌, ◌+◌, ◌++◌, ◌∷◌, [], ℕ, List, IfOk};
ghost use Rattle.cpl_block.specs.Frames.{IsFrame, IsSpot, cell_at};
ghost use Rattle.cpl_grid.specs.Grid.{IsCell};
ghost use Rattle.cpl_grid.specs.Parts.{part_row};
ghost use Rattle.cpl_phase.specs.Sites.{AreSites, AreSitesOf};

use cpl_base::Memory;
use cpl_block::{Frame, frame_laws};
use std::alloc::Global;

/// The cells of a block, ascending, and the place of each.
///
/// Source: this project's own.
#[derive(Drop)]
pub struct Sites {
    /// The cells, by their sequence indices.
    pub cells: Vec<u32>,
    /// Their places.
    pub homes: Vec<u32>,
}

/// The cells of a block and their places. All memory is taken here.
///
/// Errors: `Memory` where memory runs out.
///
/// Source: this project's own.
pub fn sites_of(alloc: Global, frame: &Frame) -> Result<Sites, Memory>
    requires { IsFrame frame.now }
    ensures { IfOk result (λ sites. AreSites frame.now sites) }
{
    let mut sites = Sites {
        cells: Vec::new(alloc),
        homes: Vec::new(alloc),
    };
    for b in 0..frame.part.rows.length {
        note_row(&mut sites, frame, b)?;
    }
    Ok(sites)
}

/// Notes the cells of a row of a block.
fn note_row(sites: &mut Sites, frame: &Frame, b: u32) -> Result<(), Memory>
    requires frame { IsFrame frame.now }
    requires row { b < frame.now.part.rows.length }
    ensures { IfOk result (λ _. (cells : List ℕ) → AreSitesOf frame.now cells sites.old
        → AreSitesOf frame.now (cells ++ part_row frame.now.grid frame.now.part b) sites.new) }
{
    for a in 0..frame.part.columns.length {
        note_site(sites, frame, a, b)?;
    }
    Ok(())
}

/// Notes a cell of a block.
fn note_site(sites: &mut Sites, frame: &Frame, a: u32, b: u32) -> Result<(), Memory>
    requires frame { IsFrame frame.now }
    requires spot { IsSpot frame.now a b }
    ensures { IfOk result (λ _. (cells : List ℕ) → AreSitesOf frame.now cells sites.old
        → AreSitesOf frame.now (cells ++ cell_at frame.now a b ∷ []) sites.new) }
{
    frame_laws(frame);
    sites.cells.push(cell_at(frame, a, b))?;
    sites.homes.push(frame.first(0, 0) + frame.step_to(a, b))?;
    Ok(())
}

/// The cell in a column and a row of a block.
fn cell_at(frame: &Frame, a: u32, b: u32) -> u32
    requires frame { IsFrame frame.now }
    requires spot { IsSpot frame.now a b }
    requires cell { IsCell frame.now.grid (cell_at frame.now a b) }
    ensures { result ≡ cell_at frame.now a b }
{
    frame.part.columns.start + a + 1 + (frame.part.rows.start + b) * frame.grid.nx
}
