//! Lines and words of a resource file, as spans of its bytes.
//!
//! What the words mean is no matter of this crate.
#![tactic(auto)]

mod examples;
mod fault;
mod text_lines;

pub use examples::text_examples;
pub use fault::TextFault;
pub use text_lines::{Line, Word, lines};
