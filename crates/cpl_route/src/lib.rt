//! Routes: which cells each PET sends to each other, for a redistribution, for a halo, and for cells that are
//! picked by lists.
#![tactic(auto)]

mod examples;
mod fault;
mod halo;
mod halo_pair;
mod laws;
mod need;
mod needs;
mod owned;
mod parts;
mod pick;
mod reach;
mod redist;
mod route;
mod sorted;
mod table;
mod walk;

pub use examples::route_examples;
pub use fault::RouteFault;
pub use laws::route_laws;
pub use need::{Need, are_ascending};
pub use route::Route;
