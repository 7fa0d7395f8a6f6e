//! What a run comes to.

use cpl_base::Many;
use cpl_comp::FoundKind;
use cpl_trace::TraceRow;

/// A fault of a run.
///
/// Source: this project's own.
#[derive(Clone, Copy, Debug, PartialEq, Eq)]
pub struct Found {
    /// Its number: 2^24 times the number of its operation, and its place among the faults of that operation.
    pub code: u64,
    /// The place of the component that noted it.
    pub component: u8,
    /// What was found, and what was wanted.
    pub kind: FoundKind,
}

/// A field when a run has ended.
///
/// Source: this project's own.
#[derive(Clone, Copy, Debug, PartialEq, Eq)]
pub struct FieldEnd {
    /// Its time stamp, if it has one, in seconds after the start.
    pub stamp: Option<i64>,
    /// The least of its values, in millionths.
    pub low: i64,
    /// The greatest of its values, in millionths.
    pub high: i64,
    /// The sum of its values, in millionths.
    pub sum: i128,
}

/// A component when a run has ended.
///
/// Source: this project's own.
#[derive(Debug, Drop)]
pub struct CompEnd {
    /// How many of its runs have ended.
    pub runs: u64,
    /// Where its clock stands, in seconds after the start; 0 where the run has a fault.
    pub clock: i64,
    /// Its fields, in their order; none where the run has a fault.
    pub fields: Many<FieldEnd>,
}

/// What a run comes to: its end, or its first fault.
///
/// Source: this project's own.
#[derive(Debug, Drop)]
pub struct Outcome {
    /// How many operations were done: all, or those before the one that has the first fault.
    pub done: u64,
    /// The components, in their order.
    pub comps: Many<CompEnd>,
    /// The fault of the least number, if there is one.
    pub fault: Option<Found>,
    /// The rows of the trace, where one is asked for; before the fault where there is one.
    pub trace: Many<TraceRow>,
}
