//! Traces: the sums of exported fields over time, gathered from the PETs and written as a table.
//!
//! Each PET logs the sums over its own cells; merged, they are the sums over whole fields.
#![tactic(auto)]

mod examples;
mod line;
mod log;
mod merging;
mod names;
mod row;
mod text;

pub use examples::trace_examples;
pub use log::PetLog;
pub use merging::merge_logs;
pub use names::TraceNames;
pub use row::TraceRow;
pub use text::trace_text;
