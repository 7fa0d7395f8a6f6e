//! From the bytes of a resource file and of its weight files to a system: the chain of all readers, in the one order in
//! which refusals are judged.
#![tactic(auto)]

mod building;
mod components;
mod examples;
mod fault;
mod matched;
mod outline;
mod reading;
mod realising;
mod refusals;
mod settings;
mod weighing;

pub use building::{build, build_text};
pub use examples::build_examples;
pub use fault::BuildFault;
