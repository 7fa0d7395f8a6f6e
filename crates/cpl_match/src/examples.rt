//! Definitions of `specs/`, evaluated.

ghost use Rattle.cpl_match.specs.Examples.{MatchExamples};

/// The definitions of matching, evaluated on examples.
///
/// Source: this project's own.
pub fn match_examples()
    ensures { MatchExamples }
{}
