//! Definitions of `specs/`, evaluated on examples.

ghost use Rattle.cpl_clock.specs.Examples.{ClockExamples};

/// The definitions of clocks and alarms, evaluated on examples.
pub fn clock_examples()
    ensures { ClockExamples }
{}
