//! The averages of a phase, checked: something must have been kept for each.

ghost use Rattle.std.specs.Prelude.{◌≡◌, ◌+◌, ◌<◌, ◌≤◌, All, List, ℕ, length, nat_lt};
ghost use Rattle.cpl_block.specs.declared.frame.Frame.{Frame};
ghost use Rattle.cpl_comp.specs.RunFaults.{average_faults, unless};
ghost use Rattle.cpl_comp.specs.Worlds.{FieldWorld};
ghost use Rattle.cpl_comp.specs.declared.found.FoundKind.TheVariants.{Average};
ghost use Rattle.cpl_marks.specs.Faults.{least_fault, noted_fault};
ghost use Rattle.cpl_phase.specs.Checks.{accum_faults};
ghost use Rattle.cpl_phase.specs.Kept.{StandForKept};

use cpl_comp::{FoundKind, Phase};
use cpl_marks::{PhaseFault, note};
use cpl_mediator::Accum;

/// Checks that something was kept for the field of each average of a phase, and notes the least fault. `accums` are the
/// running sums of the component's fields, by their places. Takes no memory.
///
/// Source: this project's own.
pub fn check_averages(phase: &Phase, accums: &[Accum], found: &mut Option<PhaseFault>)
    requires places { All (λ k. k < length accums.now) phase.now.averages }
    requires count { length phase.now.averages ≤ 64 }
    ensures { (frame : Frame) (count : ℕ) (world : List FieldWorld)
        → StandForKept frame count world accums.now → All (λ k. k < count) phase.now.averages
        → noted_fault found.new ≡ least_fault (noted_fault found.old) (average_faults world phase.now) }
{
    check_places(phase.averages.items(), accums, found);
}

/// The same, without a whole component.
fn check_places(places: &[u16], accums: &[Accum], found: &mut Option<PhaseFault>)
    requires places { All (λ k. k < length accums.now) places.now }
    requires count { length places.now ≤ 64 }
    ensures { noted_fault found.new ≡ least_fault (noted_fault found.old) (accum_faults accums.now places.now) }
{
    for number in 0..places.len() {
        let k = places[number];
        check_accum(&accums[k as usize], number, k, found);
    }
}

/// Checks that running sums are of a field or more.
fn check_accum(accum: &Accum, number: usize, field: u16, found: &mut Option<PhaseFault>)
    requires { number < 64 }
    ensures { noted_fault found.new ≡ least_fault (noted_fault found.old) (unless (nat_lt 0 accum.now.count) (65 + number) (Average field)) }
{
    if accum.count() == 0 {
        let kind = FoundKind::Average { field };
        let place = 65 + number as u64;
        note(found, PhaseFault { place, kind });
    }
}
