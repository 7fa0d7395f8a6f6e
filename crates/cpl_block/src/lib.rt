//! A field on a block of a grid, with a ring of places around it, so that a neighbour is a constant shift away.
//!
//! Only `ring_of` and `aim_of` take memory, and only they and what they call divide.
#![tactic(auto)]

mod aim;
mod examples;
mod frame;
mod laws;
mod ring;
mod totals;

pub use aim::{Aim, aim_of, put};
pub use examples::block_examples;
pub use frame::Frame;
pub use laws::{frame_laws, row_laws, whole_laws};
pub use ring::{Ring, refill, ring_of};
pub use totals::{greatest, least, row_values, sum};
