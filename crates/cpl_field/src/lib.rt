//! Fields: the values of a variable at all places of a block, and copies among places.
//!
//! What a place stands for is no matter of this crate.
#![tactic(auto)]

mod copies;
mod examples;
mod field;

pub use copies::{copy_from, copy_within};
pub use examples::field_examples;
pub use field::{Field, replace};
