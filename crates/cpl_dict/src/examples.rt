//! Definitions of `specs/`, evaluated.

ghost use Rattle.cpl_dict.specs.Examples.{DictExamples};

/// The definitions of dictionaries, evaluated on examples.
pub fn dict_examples()
    ensures { DictExamples }
{}
