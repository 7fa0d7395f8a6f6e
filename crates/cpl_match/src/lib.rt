//! Matching: which export of which component feeds each import.
//!
//! Imports and exports match by their standard names, along the ways that connectors give.
#![tactic(auto)]

mod bits;
mod examples;
mod fault;
mod fits;
mod marks;
mod matching;
mod port;
mod way_table;

pub use examples::match_examples;
pub use fault::MatchFault;
pub use matching::connect;
pub use port::{Pair, Port, Way};
