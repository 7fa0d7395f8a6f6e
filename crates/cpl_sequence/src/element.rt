//! The tree of loops that a run sequence is.

use sqlite_items::Items;

/// What stands in a loop: a link, a run of a phase, or a loop in it.
///
/// Source: NUOPC Layer Reference, the run sequence.
#[derive(Drop)]
pub enum Element {
    /// A connector runs.
    Link {
        /// Its place among the connectors.
        link: u16,
    },
    /// A phase of a component runs.
    Run {
        /// The component's place among the names.
        component: u8,
        /// The phase's place among the component's.
        phase: u8,
        /// How many seconds an operation of it covers, where that isn't the step.
        substep: Option<u64>,
    },
    /// A loop: its body runs at every step, `duration / step` times.
    Loop {
        /// The step in seconds.
        step: u64,
        /// How long it lasts, in seconds.
        duration: u64,
        /// What stands in it.
        body: Items<Element>,
    },
}

/// A loop that stands in no other, with the time at which it begins.
///
/// Source: NUOPC Layer Reference, the run sequence.
#[derive(Drop)]
pub struct TopLoop {
    /// When it begins, in seconds after the start.
    pub begin: u64,
    /// The step in seconds.
    pub step: u64,
    /// How long it lasts, in seconds.
    pub duration: u64,
    /// What stands in it.
    pub body: Items<Element>,
}
