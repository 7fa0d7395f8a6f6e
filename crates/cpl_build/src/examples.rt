//! Definitions of `specs/`, evaluated.

ghost use Rattle.cpl_build.specs.Examples.{RefusalExamples};

/// The definitions of refusals, evaluated on examples.
pub fn build_examples()
    ensures { RefusalExamples }
{}
