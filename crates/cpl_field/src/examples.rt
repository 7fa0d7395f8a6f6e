//! Definitions of `specs/`, evaluated.

ghost use Rattle.cpl_field.specs.Examples.{FieldExamples};

/// The definitions of copies, evaluated on examples.
pub fn field_examples()
    ensures { FieldExamples }
{}
