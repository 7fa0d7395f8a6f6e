//! The components that a run sequence may name.

use cpl_base::{Many, Text};

/// A component by its name, with the phases that it has.
///
/// Source: this project's own.
#[derive(Debug, Drop)]
pub struct SeqName {
    /// Its name.
    pub name: Text,
    /// The labels of its phases, in the order in which they are registered.
    pub phases: Many<Text>,
    /// How many seconds an operation of it covers at most, if it has such a limit. A Mediator has none.
    pub substep: Option<i64>,
}
