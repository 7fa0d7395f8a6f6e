//! Definitions of `specs/`, evaluated.

ghost use Rattle.cpl_comp.specs.Examples.{AdvertisedExamples, RealisedExamples};
ghost use Rattle.cpl_comp.specs.ReadingExamples.{ReadingExamples};

/// The definitions of components, evaluated on small files.
///
/// Source: this project's own.
pub fn component_examples()
    ensures advertised { AdvertisedExamples }
    ensures realised { RealisedExamples }
{}

/// What rules read at a moment, evaluated.
///
/// Source: this project's own.
pub fn reading_examples()
    ensures { ReadingExamples }
{}
