//! Definitions of `specs/`, evaluated.

ghost use Rattle.cpl_sweep.specs.Examples.{SweepExamples};

/// The definitions of sweeps, evaluated on examples.
pub fn sweep_examples()
    ensures { SweepExamples }
{}
