//! Running a system: its operations one after another, in place.

ghost use Rattle.std.specs.Prelude.{◌≡◌, IfOk};
ghost use Rattle.cpl_driver.specs.Reads.{IsSound};
ghost use Rattle.cpl_driver.specs.Runs.{operations, final_world};
ghost use Rattle.cpl_driver.specs.Endings.{IsEnding};

use crate::system::System;
use cpl_base::Memory;
use cpl_formula::value;
use std::alloc::Global;

/// What a run leaves.
#[derive(Clone, Copy, Debug)]
pub struct Ending {
    /// How many operations were done.
    pub operations: u64,
    /// How often the component ran.
    pub runs: u64,
    /// The component's clock, in seconds after the start.
    pub clock: u64,
    /// The variable's value at the one cell, in millionths.
    pub value: i64,
}

/// Runs a system from its initialisation to the end of its run sequence. Nothing is allocated for an
/// operation.
pub fn run(alloc: Global, system: &System) -> Result<Ending, Memory>
    requires { IsSound system.now }
    ensures { IfOk result (IsEnding system.now) }
{
    let mut inputs = vec![in alloc; 0i64; system.rule.reads.items().len()]?;
    let step = system.sequence.step;
    let count = system.sequence.duration / step;
    let mut clock = 0;
    let mut cell = system.start;
    for _run in 0..count {
        inputs.fill(cell);
        cell = value(&system.rule.tree, inputs.as_slice());
        clock += step;
    }
    Ok(Ending {
        operations: 1 + count,
        runs: count,
        clock,
        value: cell,
    })
}
