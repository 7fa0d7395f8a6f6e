//! When an operation of a run takes place.

/// When an operation of a run takes place, in seconds after the start.
///
/// Source: this project's own.
#[derive(Clone, Copy, Debug, PartialEq, Eq)]
pub struct Turn {
    /// The time of the iteration in which it stands, at which the step begins.
    pub time: i64,
    /// For how long the step leads on.
    pub step: i64,
    /// The time from which the operation itself leads on.
    pub at: i64,
    /// For how long the operation itself leads on.
    pub substep: i64,
    /// Whether it is the first operation of the step.
    pub first: bool,
    /// Whether it is the last operation of the step.
    pub last: bool,
}
