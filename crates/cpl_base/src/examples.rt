//! Definitions of `specs/`, evaluated.

ghost use Rattle.cpl_base.specs.Examples.{RoundingExamples, TextExamples, ValueExamples};

/// The definitions of values, evaluated on examples.
pub fn value_examples()
    ensures { ValueExamples }
{}

/// The definitions of rounding, evaluated on examples.
pub fn rounding_examples()
    ensures { RoundingExamples }
{}

/// The definitions of words, names and numbers in a text, evaluated on examples.
pub fn text_examples()
    ensures { TextExamples }
{}
