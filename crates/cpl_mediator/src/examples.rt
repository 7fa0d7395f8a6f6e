//! Definitions of `specs/`, evaluated.

ghost use Rattle.cpl_mediator.specs.Examples.{AverageExamples, MergeExamples};

/// The definitions of averages, evaluated on examples.
pub fn average_examples()
    ensures { AverageExamples }
{}

/// The definitions of merges, evaluated on examples.
pub fn merge_examples()
    ensures { MergeExamples }
{}
