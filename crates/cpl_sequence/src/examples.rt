//! Definitions of `specs/`, evaluated.

ghost use Rattle.cpl_sequence.specs.Examples.{SequenceExamples};

/// The definitions of run sequences, evaluated on examples.
///
/// Source: this project's own.
pub fn sequence_examples()
    ensures { SequenceExamples }
{}
