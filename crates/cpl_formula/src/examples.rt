//! Definitions of `specs/`, evaluated.

ghost use Rattle.cpl_formula.specs.Examples.{FormulaExamples};

/// The definitions of formulas, evaluated on examples.
///
/// Source: this project's own.
pub fn formula_examples()
    ensures { FormulaExamples }
{}
