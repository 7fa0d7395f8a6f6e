//! Configurations of a coupled system of four components, made from a seed.
#![tactic(auto)]

mod config;
mod draws;
mod examples;
mod template;

pub use config::make_config;
pub use examples::config_examples;
