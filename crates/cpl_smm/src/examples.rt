//! Definitions of `specs/`, evaluated.

ghost use Rattle.cpl_smm.specs.Examples.{WeightExamples};

/// The definitions of weights, evaluated on examples.
///
/// Source: this project's own.
pub fn weight_examples()
    ensures { WeightExamples }
{}
