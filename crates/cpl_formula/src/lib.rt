//! Formulas: how the text of a rule is read, and the value of what was read.
//!
//! A formula knows fields by their places in lists that the caller gives; what a field holds is no
//! matter of this crate.
#![tactic(auto)]

mod arguments;
mod examples;
mod fault;
mod field_names;
mod formula;
mod functions;
mod laws;
mod lexing;
mod parts;
mod reading;
mod reads;
mod state;
mod steps;
mod tokens;
mod worth;

pub use arguments::{Argument, read_argument};
pub use examples::formula_examples;
pub use fault::FormulaFault;
pub use field_names::is_field_name;
pub use formula::{EntrySign, Formula, Parsed, Read, ReadName};
pub use laws::{grammar_laws, value_laws};
pub use reading::parse;
pub use worth::value;
