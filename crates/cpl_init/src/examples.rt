//! Definitions of `specs/`, evaluated.

ghost use Rattle.cpl_init.specs.Examples.{InitExamples};

/// The definitions of orders and of components that wait, evaluated on examples.
pub fn init_examples()
    ensures { InitExamples }
{}
