//! The serial engine: a system carried out in place, one operation after another.
#![tactic(auto)]

mod applying;
mod ending;
mod ends;
mod imaging;
mod linking;
mod opening;
mod running;
mod stepping;
mod stop;
mod tracing;
mod world;

pub use running::serial_run;
pub use world::World;
