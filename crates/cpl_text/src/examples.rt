//! Definitions of `specs/`, evaluated.

ghost use Rattle.cpl_text.specs.Examples.{TextExamples};

/// The definitions of lines and words, evaluated on small texts.
pub fn text_examples()
    ensures { TextExamples }
{}
