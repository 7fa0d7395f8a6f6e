//! Why rows are no run sequence.

ghost use Rattle.std.specs.Prelude.{◌≡◌};
ghost use Rattle.cpl_runseq.specs.declared.fault.SeqFault.{SeqFault};

use cpl_base::Memory;
use std::alloc::{AllocError, AllocFailed};
use thiserror::Error;

/// Why rows are no run sequence.
///
/// Source: this project's own.
#[derive(Clone, Copy, Debug, PartialEq, Eq, Error)]
pub enum SeqFault {
    /// A row of no form that is known, also one that begins with `@@`; or an option without a colon in front,
    /// a number of terms that is none, or a method that lacks its file.
    #[error("line {line} is no part of a run sequence")]
    BadElement {
        /// The number of the line.
        line: u32,
    },
    /// A row that closes a loop, where none is open.
    #[error("line {line} closes a loop where none is open")]
    LoopStray {
        /// The number of the line.
        line: u32,
    },
    /// A link or a run outside of all loops.
    #[error("line {line} stands outside of all loops")]
    OutsideLoop {
        /// The number of the line.
        line: u32,
    },
    /// A ninth loop, inside of eight.
    #[error("line {line} opens a ninth loop in eight")]
    LoopTooDeep {
        /// The number of the line.
        line: u32,
    },
    /// A row of one word that begins with `@` and gives no step or duration in range, or a nested loop that
    /// lasts longer than the step around it.
    #[error("line {line} gives no step or duration in range")]
    BadStep {
        /// The number of the line.
        line: u32,
    },
    /// A loop with the run's own step, where the run has none.
    #[error("line {line} asks for the step of the run, which has none")]
    StepUnset {
        /// The number of the line.
        line: u32,
    },
    /// A loop whose step doesn't divide how long it lasts.
    #[error("the step of the loop at line {line} does not divide how long it lasts")]
    StepUneven {
        /// The number of the line.
        line: u32,
    },
    /// A component that isn't among the names.
    #[error("line {line} names no component")]
    ComponentUnknown {
        /// The number of the line.
        line: u32,
    },
    /// A phase that isn't among the component's.
    #[error("line {line} names no phase of its component")]
    PhaseUnknown {
        /// The number of the line.
        line: u32,
    },
    /// A component whose substep doesn't divide the step of the loop.
    #[error("the substep of the component at line {line} does not divide the step")]
    SubstepUneven {
        /// The number of the line.
        line: u32,
    },
    /// A link of a component with itself.
    #[error("line {line} links a component with itself")]
    SelfLink {
        /// The number of the line.
        line: u32,
    },
    /// A method that isn't known.
    #[error("line {line} names a method that is not known")]
    MethodUnsupported {
        /// The number of the line.
        line: u32,
    },
    /// A later line of a connector, whose options differ from those of its first line.
    #[error("the options at line {line} are not those of the first line of its link")]
    OptionsDiffer {
        /// The number of the line.
        line: u32,
    },
    /// A loop that is open at the end.
    #[error("the loop at line {line} is open at the end")]
    LoopUnclosed {
        /// The number of the line that opens the innermost.
        line: u32,
    },
    /// A top loop without a duration that isn't the last, or for which there is no stop time.
    #[error("the loop at line {line} has no duration")]
    DurationMissing {
        /// The number of the line.
        line: u32,
    },
    /// The durations of the top loops don't add up to the span up to the stop time, or leave nothing of it
    /// for the last, which has none.
    #[error("the loops last {have} seconds, the run {want}")]
    SpanMismatch {
        /// How long the loops with a duration last together, in seconds.
        have: u128,
        /// The span from start to stop, in seconds.
        want: i64,
    },
    /// Without a stop time, the top loops last no time at all, or the calendar ends before they do.
    #[error("the loops last {span} seconds, which is none or too long")]
    SpanTooLong {
        /// How long they last together, in seconds.
        span: u128,
    },
    /// Out of memory.
    #[error("out of memory")]
    Memory,
}

impl From<Memory> for SeqFault {
    ghost from_gives = { λ _ fault. fault ≡ SeqFault.Memory };

    fn from(_memory: Memory) -> SeqFault {
        SeqFault::Memory
    }
}

impl From<AllocError> for SeqFault {
    ghost from_gives = { λ _ fault. fault ≡ SeqFault.Memory };

    fn from(_error: AllocError) -> SeqFault {
        SeqFault::Memory
    }
}

impl<T: Drop> From<AllocFailed<T>> for SeqFault {
    ghost from_gives = { λ _ fault. fault ≡ SeqFault.Memory };

    fn from(_failed: AllocFailed<T>) -> SeqFault {
        SeqFault::Memory
    }
}
