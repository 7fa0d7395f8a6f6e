//! Rules of components, carried out over a block of a grid.
#![tactic(auto)]

mod assigning;
mod calling;
mod demand;
mod examples;
mod inputs;
mod moment;
mod numbers;
mod room;
mod scene;

pub use assigning::assign;
pub use demand::{Demand, demand_of};
pub use examples::rule_examples;
pub use inputs::{input_count, place_inputs};
pub use moment::{Moment, Times, moment_at};
pub use numbers::write_numbers;
pub use room::{Room, room_of};
pub use scene::Scene;
