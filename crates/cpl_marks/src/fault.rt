//! Faults of an operation, by their places.

ghost use Rattle.std.specs.Prelude.{◌≡◌};
ghost use Rattle.cpl_comp.specs.RunFaults.{lesser};
ghost use Rattle.cpl_marks.specs.Faults.{fault_of, noted_fault};

use cpl_comp::FoundKind;

/// A fault, and its place among the faults that its operation may have: the clock's is 0, from 1 on come the imports',
/// from 65 on the averages', and from 129 on the ranges', eight places a cell.
///
/// Source: this project's own.
#[derive(Clone, Copy, Debug, PartialEq, Eq)]
pub struct PhaseFault {
    /// Its place.
    pub place: u64,
    /// What was found and what was wanted.
    pub kind: FoundKind,
}

/// Notes a fault, unless one that comes no later is noted.
///
/// Source: this project's own.
pub fn note(found: &mut Option<PhaseFault>, fault: PhaseFault)
    ensures { noted_fault found.new ≡ lesser (λ fault. fault.place) (noted_fault found.old) (fault_of fault) }
{
    match found {
        None => *found = Some(fault),
        Some(best) => {
            if fault.place < best.place {
                *found = Some(fault);
            }
        }
    }
}
