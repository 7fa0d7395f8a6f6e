//! Grids of columns and rows, their neighbours, and how a grid is divided among PETs.
//!
//! Each call takes constant time and no memory.
#![tactic(auto)]

mod blocks;
mod decomp;
mod examples;
mod grid;

pub use blocks::{Block, Part, part_laws};
pub use decomp::{BlocksMismatch, Decomp, decomposition_laws};
pub use examples::grid_examples;
pub use grid::{Grid, numbering_laws};
