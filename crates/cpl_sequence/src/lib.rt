//! The run sequence as a tree of loops, and the operations that it stands for.
//!
//! How a sequence is written is no matter of this crate, nor what an operation does.
#![tactic(auto)]

mod cursor;
mod element;
mod examples;
mod frame;
mod link_line;
mod marks;
mod op;
mod ops;
mod run_ends;
mod seq;
mod seq_name;
mod turns;

pub use cursor::Cursor;
pub use element::{Element, TopLoop};
pub use examples::sequence_examples;
pub use link_line::{LinkLine, Method};
pub use op::Op;
pub use run_ends::run_total;
pub use seq::Seq;
pub use seq_name::SeqName;
