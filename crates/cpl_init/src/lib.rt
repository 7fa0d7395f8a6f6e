//! The order in which components are initialised, each behind the producers that it needs.
#![tactic(auto)]

mod components;
mod examples;
mod fault;
mod laws;
mod needs;
mod ordering;
mod rounds;

pub use components::Components;
pub use examples::init_examples;
pub use fault::InitFault;
pub use laws::order_laws;
pub use needs::Needs;
pub use ordering::order;
