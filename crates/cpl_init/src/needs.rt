//! What a component needs.

/// That a component can be initialised only behind a producer. Both are numbers of components, from 0
/// in the order in which they are listed.
#[derive(Clone, Copy, Debug, PartialEq, Eq)]
pub struct Needs {
    /// The component that needs the other.
    pub component: u8,
    /// The component that it needs.
    pub producer: u8,
}
