//! Definitions of `specs/`, evaluated.

ghost use Rattle.cpl_runseq.specs.Examples.{ReadingExamples};

/// The definition of reading, evaluated on short sequences.
///
/// Source: this project's own.
pub fn reading_examples()
    ensures { ReadingExamples }
{}
