//! The items of a resource file: value items and tables, each under its label.
//!
//! What a label means, and what its words are to be, is no matter of this crate.
#![tactic(auto)]

mod entry;
mod examples;
mod fault;
mod items;
mod reading;
mod row;
mod words;

pub use entry::{Entry, Item};
pub use examples::item_examples;
pub use fault::ItemFault;
pub use items::Items;
pub use reading::read_items;
pub use row::{Row, Table};
