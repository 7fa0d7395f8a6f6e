//! An accepted configuration, and what a run of it is.
#![tactic(auto)]

mod draft;
mod examples;
mod fault;
mod halos;
mod init_ops;
mod link;
mod op_cursor;
mod outcome;
mod parts;
mod routes;
mod system;
mod tracing;

pub use cpl_comp::FoundKind;
pub use examples::{part_examples, run_examples};
pub use fault::SystemFault;
pub use link::Link;
pub use op_cursor::OpCursor;
pub use outcome::{CompEnd, FieldEnd, Found, Outcome};
pub use parts::SystemParts;
pub use system::System;
pub use tracing::trace_rows;
