//! The clock of a run, and the alarms that tell when something is due.
#![tactic(auto)]

mod alarm;
mod clock;
mod examples;
mod fault;

pub use alarm::Alarm;
pub use clock::Clock;
pub use examples::clock_examples;
pub use fault::ClockFault;
