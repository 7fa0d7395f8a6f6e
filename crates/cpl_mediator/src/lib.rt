//! Averages over time and merges of several fields, as mediators make them.
//!
//! Kept fields are held as one running sum for each cell.
#![tactic(auto)]

mod accum;
mod examples;
mod fault;
mod merging;
mod sums;

pub use accum::Accum;
pub use examples::{average_examples, merge_examples};
pub use fault::AverageEmpty;
pub use merging::merge;
