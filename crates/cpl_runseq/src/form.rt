//! What the words of a row say by their form alone.

/// What a row says.
#[derive(Clone, Copy)]
pub(crate) enum Form<'a> {
    /// The innermost loop ends.
    Close,
    /// A loop begins.
    Opening {
        /// Its step in seconds, or nothing for the step around it.
        step: Option<u64>,
        /// How long it lasts in seconds, where that is given.
        given: Option<u64>,
    },
    /// A loop begins, of no form that is known.
    BadStep,
    /// A connector runs.
    Link {
        /// The component that exports.
        src: &'a [u8],
        /// The component that imports.
        dst: &'a [u8],
        /// The further words.
        options: &'a [&'a [u8]],
    },
    /// A phase runs.
    Run {
        /// The component.
        component: &'a [u8],
        /// The phase, where one is named.
        phase: Option<&'a [u8]>,
    },
    /// None of these.
    BadElement,
}
