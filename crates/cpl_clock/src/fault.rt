//! Why there is no such clock, or no further step of it.

/// Why a clock can't be made, or can't go on: the first of these that holds.
#[derive(Clone, Copy, Debug, PartialEq, Eq)]
pub enum ClockFault {
    /// The step is less than a second.
    StepZero,
    /// The stop isn't after the start.
    StopNotAfter,
    /// A step further would be past the stop.
    PastStop,
}
