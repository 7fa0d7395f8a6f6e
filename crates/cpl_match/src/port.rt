//! What is matched: ports, the ways between their components, and pairs.

use cpl_base::Text;

/// A field that a component imports or exports.
///
/// Source: NUOPC Layer Reference, Connector (fields of an import state and an export state).
#[derive(Debug, Drop)]
pub struct Port {
    /// The number of its component.
    pub component: u8,
    /// Its place among the component's fields.
    pub field: u16,
    /// Whether it is an import, else an export.
    pub import: bool,
    /// Its standard name.
    pub standard: Text,
    /// Whether it may stay without an export, where it is an import.
    pub optional: bool,
}

/// An export and the import that it feeds.
///
/// Source: NUOPC Layer Reference, Connector.
#[derive(Clone, Copy, Debug, PartialEq, Eq)]
pub struct Pair {
    /// The component of the export.
    pub src: u8,
    /// The place of the export among its fields.
    pub src_field: u16,
    /// The component of the import.
    pub dst: u8,
    /// The place of the import among its fields.
    pub dst_field: u16,
}

/// That a connector leads from one component to another.
///
/// Source: NUOPC Layer Reference, Connector.
#[derive(Clone, Copy, Debug, PartialEq, Eq)]
pub struct Way {
    /// The component from which it leads.
    pub src: u8,
    /// The component to which it leads.
    pub dst: u8,
    /// Whether it redistributes: each cell takes the value of the cell of equal index.
    pub redist: bool,
}
