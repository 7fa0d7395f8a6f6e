//! The operations of a run.

/// What a run does next.
///
/// Source: this project's own, after the NUOPC run sequence.
#[derive(Clone, Copy, Debug, PartialEq, Eq)]
pub enum Op {
    /// A component is initialised.
    Init {
        /// Its place among the components.
        component: u8,
    },
    /// A connector carries its fields.
    Link {
        /// Its place among the connectors.
        link: u16,
        /// Whether it runs for an initialisation.
        at_init: bool,
    },
    /// A phase of a component runs. Times are in seconds after the start.
    Run {
        /// The component's place among the components.
        component: u8,
        /// The phase's place among the component's.
        phase: u8,
        /// When the iteration of the loop begins in which it stands.
        time: i64,
        /// The step of that loop, in seconds.
        step: i64,
        /// The time from which this operation leads on.
        at: i64,
        /// How many seconds it leads on.
        substep: i64,
        /// Whether it is the first of this phase in this iteration.
        first: bool,
        /// Whether it is the last of them.
        last: bool,
    },
}
