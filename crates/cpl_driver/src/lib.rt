//! The calls that run a coupled system from the words of a command: from the bytes of a resource file
//! to the bytes of a report.
//!
//! Today a system is one model on one cell, with one variable, one formula and one time loop.
#![tactic(auto)]

mod couple;
mod examples;
mod items;
mod reading;
mod report;
mod running;
mod status;
mod system;
mod unread;

pub use couple::couple_solo;
pub use examples::serial_examples;
pub use status::Status;
