//! The rows of a run sequence, read as a tree of loops over the components that it may name.
//!
//! The tree and the operations that it stands for are those of `cpl_sequence`, whose names stand here too.
#![tactic(auto)]

mod elements;
mod examples;
mod fault;
mod form;
mod links;
mod loops;
mod open_loops;
mod options;
mod read_loop;
mod reading;
mod row_forms;
mod state;
mod transfer;
mod whole;
mod words;

pub use cpl_sequence::{Cursor, LinkLine, Method, Op, Seq, SeqName};
pub use examples::reading_examples;
pub use fault::SeqFault;
pub use reading::read_sequence;
