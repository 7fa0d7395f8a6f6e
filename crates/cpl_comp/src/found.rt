//! What a run of a component finds amiss.

/// A fault that a run notes, with what was found and what was wanted. It is noted and the values go on, so that
/// every operation has a result.
///
/// Source: NUOPC Layer Reference, checks of time stamps by Model and Mediator; which checks there are, and that
/// the run goes on behind a fault, are this project's own.
#[derive(Clone, Copy, Debug, PartialEq, Eq)]
pub enum FoundKind {
    /// A model's clock doesn't stand at the beginning of the step.
    Clock {
        /// Where it stands, in seconds after the start.
        found: i64,
        /// The time at which the step begins.
        wanted: i64,
    },
    /// An import hasn't the time stamp that it must have.
    Import {
        /// Its place among the component's fields.
        field: u16,
        /// Its stamp, if it has one, in seconds after the start.
        found: Option<i64>,
        /// The stamp that it must have.
        wanted: i64,
    },
    /// There is nothing kept whose mean a field could take.
    Average {
        /// The field's place among the component's.
        field: u16,
    },
    /// A value lies outside its range.
    Range {
        /// The field's place among the component's.
        field: u16,
        /// The cell, by its sequence index.
        cell: u32,
        /// Its value, in millionths.
        value: i64,
        /// The least value of the range.
        low: i64,
        /// The greatest value of the range.
        high: i64,
    },
}
