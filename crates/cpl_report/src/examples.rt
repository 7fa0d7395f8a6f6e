//! Definitions of `specs/`, evaluated.

ghost use Rattle.cpl_report.specs.Examples.{RefusalExamples};

/// The definitions of refusals, evaluated on examples.
pub fn refusal_examples()
    ensures { RefusalExamples }
{}
