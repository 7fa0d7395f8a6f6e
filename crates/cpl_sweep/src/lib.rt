//! Sweeps: the values of a formula over a run of cells, a strip of them at a time.
#![tactic(auto)]

mod examples;
mod filling;
mod joining;
mod kernels;
mod operands;
mod operators;
mod place;
mod rows;
mod sweeping;

pub use examples::sweep_examples;
pub use place::Place;
pub use rows::scratch_rows;
pub use sweeping::{STRIP, sweep};
