//! Definitions of `specs/`, evaluated.

ghost use Rattle.cpl_config.specs.Examples.{ItemExamples};

/// The definitions of items, evaluated on small files.
pub fn item_examples()
    ensures { ItemExamples }
{}
