//! Native entries: rules that are written in code, each beside the formula whose value it answers.
//!
//! A file of a run names an entry by its label. What is proved of a run speaks of the entry's formula alone; its
//! closure may compute in any way that gives the formula's values.
#![tactic(auto)]

mod book;
mod entry;
mod examples;
mod fault;
mod labels;
mod signing;

pub use book::EntryBook;
pub use entry::{Entry, EntryCall};
pub use examples::entry_examples;
pub use fault::EntryFault;
