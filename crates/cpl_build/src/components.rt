//! Components on their way from names to a whole.

use cpl_base::{Many, Text};
use cpl_comp::{Advertised, Comp};

/// A component that is listed, and what it advertises.
#[derive(Drop)]
pub(crate) struct Candidate {
    /// Its name.
    pub name: Text,
    /// What it advertises.
    pub advertised: Advertised,
}

/// The components of a file, and how many PETs they need.
#[derive(Drop)]
pub(crate) struct Components {
    /// How many PETs there are.
    pub pets: u8,
    /// The components, in the order of their list.
    pub comps: Many<Comp>,
}
