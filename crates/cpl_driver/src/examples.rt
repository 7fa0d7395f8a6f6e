//! Definitions of `specs/`, evaluated.

ghost use Rattle.cpl_driver.specs.Examples.{SerialExamples};

/// The definitions of a run, evaluated on examples.
pub fn serial_examples()
    ensures { SerialExamples }
{}
