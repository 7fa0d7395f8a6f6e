//! Definitions of `specs/`, evaluated.

ghost use Rattle.cpl_script.specs.DayExamples.{DayExamples};
ghost use Rattle.cpl_script.specs.Examples.{LinkExamples, ModelExamples};
ghost use Rattle.cpl_script.specs.MediatorExamples.{MediatorExamples};
ghost use Rattle.cpl_script.specs.PartExamples.{HaloExamples, PartExamples};

/// What runs of small systems come to, and a day of four components and ten.
///
/// Source: this project's own.
pub fn run_examples()
    ensures model { ModelExamples }
    ensures links { LinkExamples }
    ensures mediator { MediatorExamples }
    ensures days { DayExamples }
{}

/// Routes, parts and parcels of small systems.
///
/// Source: this project's own.
pub fn part_examples()
    ensures parts { PartExamples }
    ensures halos { HaloExamples }
{}
