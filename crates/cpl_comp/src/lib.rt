//! Components as a resource file writes them: read, and refused with the first fault.
#![tactic(auto)]

mod advertised;
mod advertising;
mod component;
mod examples;
mod fault;
mod field_rows;
mod field_table;
mod field_words;
mod found;
mod grids;
mod halos;
mod labels;
mod pets;
mod phase_rows;
mod phases;
mod realised;
mod realising;
mod row_forms;
mod row_table;
mod rules;
mod scope;
mod starts;

pub use advertised::Advertised;
pub use advertising::advertise;
pub use component::{
    Comp, Field, Halo, Kind, MergeRow, Phase, RangeRow, Role, Rule, SetRow, Wanted,
};
pub use cpl_formula::Argument;
pub use examples::{component_examples, reading_examples};
pub use fault::CompFault;
pub use found::FoundKind;
pub use realised::Realised;
pub use realising::realise;
