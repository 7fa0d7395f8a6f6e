//! The names that a trace is written with.

use cpl_base::{Many, Text};

/// The names of components, and of each component's phases and fields.
#[derive(Drop)]
pub struct TraceNames {
    /// The components' names, by place.
    pub components: Many<Text>,
    /// For each component the names of its phases, by place.
    pub phases: Many<Many<Text>>,
    /// For each component the names of its fields, by place.
    pub fields: Many<Many<Text>>,
}
