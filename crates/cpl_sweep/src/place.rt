//! Where the values of an input come from.

/// The values of one input of a formula over a run of cells.
#[derive(Clone, Copy)]
pub enum Place {
    /// One value at every cell, in millionths.
    Same(i64),
    /// The values of a field, by its place among the fields, from a first place of it on.
    From { field: u16, first: u32 },
}
