//! The dictionary of fields: their standard names, the units of each, and which names stand for one
//! another.
//!
//! Nothing here knows of components; who connects fields asks how well two names match, name by name or by
//! the numbers of names and of synonym calls.
#![tactic(auto)]

mod dict;
mod examples;
mod fault;
mod numbers;
mod places;

pub use dict::Dict;
pub use examples::dict_examples;
pub use fault::DictFault;
