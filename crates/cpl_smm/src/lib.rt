//! Weights of a sparse matrix product: how a CSV file writes them, the row of each destination cell, and what
//! a row makes of source values.
#![tactic(auto)]

mod columns;
mod entries;
mod examples;
mod fault;
mod marks;
mod numbers;
mod reading;
mod records;
mod rows;
mod sums;
mod weights;

pub use examples::weight_examples;
pub use fault::WeightFault;
pub use reading::read_weights;
pub use sums::apply_row;
pub use weights::Weights;
