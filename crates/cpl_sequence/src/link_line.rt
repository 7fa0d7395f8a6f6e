//! The connectors of a run sequence.

use cpl_base::Text;

/// How a connector brings fields from one grid to another.
///
/// Source: NUOPC Layer Reference, connectors and their options.
#[derive(Clone, Copy, Debug, PartialEq, Eq)]
pub enum Method {
    /// Each cell takes the value of the cell of the same index.
    Redist,
    /// Each cell takes a weighted sum, by the weights of a file.
    Weights,
}

/// A connector: from which component it carries fields to which, and how.
///
/// Source: NUOPC Layer Reference, connectors and their options.
#[derive(Debug, Drop)]
pub struct LinkLine {
    /// The place of the component that it carries from.
    pub src: u8,
    /// The place of the component that it carries to.
    pub dst: u8,
    /// How it carries.
    pub method: Method,
    /// The file of the weights, empty where there are none.
    pub file: Text,
    /// How many terms of a sum the source adds up, which changes no value.
    pub terms: i64,
    /// The number of the first line that names it.
    pub line: u32,
}
