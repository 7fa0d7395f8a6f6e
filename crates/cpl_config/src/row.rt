//! Rows of words, and tables of rows.

use cpl_base::{Many, Text};

/// A line of a table, or the values of a value item.
#[derive(Debug, Drop)]
pub struct Row {
    /// The number of its line in the file, counted from 1.
    pub line: u32,
    /// Its words, from left to right.
    pub words: Many<Text>,
}

/// A table: what stands between the line that opens it and the one that closes it.
#[derive(Debug, Drop)]
pub struct Table {
    /// The number of the line that opens it.
    pub line: u32,
    /// The lines with words between the two, in their order.
    pub rows: Many<Row>,
}
