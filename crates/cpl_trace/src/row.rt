//! A row of a trace.

/// The sum of an export after an operation that ends a step of its component.
#[derive(Clone, Copy, Debug, PartialEq, Eq)]
pub struct TraceRow {
    /// The operation's number.
    pub op: u64,
    /// The component's place, from 0.
    pub component: u8,
    /// The place of the phase that ran among the component's phases, from 0.
    pub phase: u8,
    /// The field's place among the component's fields, from 0.
    pub field: u16,
    /// The field's stamp, in seconds after the start.
    pub stamp: i64,
    /// The sum over cells, in millionths.
    pub sum: i128,
}
