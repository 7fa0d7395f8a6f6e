//! What a resource file describes.

use cpl_base::Text;
use cpl_formula::Parsed;

/// A time loop of the run sequence: its step and its duration, in seconds.
#[derive(Clone, Copy, Debug)]
pub struct Loop {
    pub step: u64,
    pub duration: u64,
}

/// A system of one component on one cell, with one variable.
#[derive(Debug, Drop)]
pub struct System {
    /// The component's name.
    pub component: Text,
    /// The variable's name.
    pub field: Text,
    /// The variable's value after the initialisation, in millionths.
    pub start: i64,
    /// What the phase assigns to the variable.
    pub rule: Parsed,
    /// The loop around the run of the phase.
    pub sequence: Loop,
}
