//! The texts of refusals: what a command writes where a configuration isn't accepted.
#![tactic(auto)]

mod examples;
mod names;
mod refusal;

pub use examples::refusal_examples;
pub use refusal::{Refusal, refusal_text};
