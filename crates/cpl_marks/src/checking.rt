//! What the first operation of a step checks.

ghost use Rattle.std.specs.Prelude.{◌≡◌, ◌+◌, ◌<◌, All, Bool, List, length};
ghost use Rattle.std.specs.List.{flat_map};
ghost use Rattle.cpl_comp.specs.Marks.{marks_of};
ghost use Rattle.cpl_comp.specs.RunFaults.{clock_faults, first_faults, is_stamp, unless, wanted_stamp};
ghost use Rattle.cpl_comp.specs.Worlds.{CompWorld};
ghost use Rattle.cpl_comp.specs.declared.component.Comp.{Comp};
ghost use Rattle.cpl_comp.specs.declared.component.Phase.{Phase};
ghost use Rattle.cpl_comp.specs.declared.found.FoundKind.TheVariants.{Import as ImportFault};
ghost use Rattle.cpl_marks.specs.Faults.{least_fault, noted_fault};
ghost use Rattle.cpl_marks.specs.Held.{marks_in};
ghost use Rattle.cpl_marks.specs.Plans.{IsPlanOf, IsPlanWithin, is_connected, mark_faults, stamp_fault, stamp_faults};
ghost use Rattle.cpl_marks.specs.Turns.{IsTurn, turn_of};

use crate::fault::{PhaseFault, note};
use crate::marks::Marks;
use crate::plan::{CheckedImport, StampPlan};
use crate::turn::Turn;
use cpl_comp::{FoundKind, Kind, Wanted};

/// Checks what a run looks at before its first operation of a step, and notes the least fault: a model's clock must stand
/// at the beginning of the step, and each import of the plan must have its stamp. At other operations nothing is looked at.
/// Takes no memory.
///
/// Source: NUOPC Layer Reference, checks of time stamps by Model and Mediator.
pub fn check_marks(
    kind: Kind,
    plan: &StampPlan,
    turn: &Turn,
    marks: &Marks,
    found: &mut Option<PhaseFault>,
)
    requires turn { IsTurn turn.now }
    requires plan { IsPlanWithin (length marks.now.stamps) plan.now }
    ensures { (comp : Comp) (phase : Phase) (connected : List Bool) (world : CompWorld)
        → IsPlanOf comp phase connected plan.now → comp.kind ≡ kind → marks_of world ≡ marks_in marks.now
        → noted_fault found.new ≡ least_fault (noted_fault found.old) (first_faults comp phase (turn_of turn.now) (is_connected connected) world) }
{
    check_planned(kind, plan, turn, marks, found);
}

/// The same, without a component.
fn check_planned(
    kind: Kind,
    plan: &StampPlan,
    turn: &Turn,
    marks: &Marks,
    found: &mut Option<PhaseFault>,
)
    requires turn { IsTurn turn.now }
    requires plan { IsPlanWithin (length marks.now.stamps) plan.now }
    ensures { noted_fault found.new ≡ least_fault (noted_fault found.old) (mark_faults kind plan.now (turn_of turn.now) (marks_in marks.now)) }
{
    if turn.first {
        check_clock(kind, turn, marks.clock, found);
        check_imports(plan.checked.items(), turn, marks.stamps.items(), found);
    }
}

/// Checks where a clock stands.
fn check_clock(kind: Kind, turn: &Turn, clock: i64, found: &mut Option<PhaseFault>)
    ensures { noted_fault found.new ≡ least_fault (noted_fault found.old) (clock_faults kind (turn_of turn.now) clock) }
{
    match kind {
        Kind::Mediator => {}
        Kind::Model => {
            if clock != turn.time {
                let kind = FoundKind::Clock {
                    found: clock,
                    wanted: turn.time,
                };
                note(found, PhaseFault { place: 0, kind });
            }
        }
    }
}

/// Checks the stamps of imports.
fn check_imports(
    checked: &[CheckedImport],
    turn: &Turn,
    stamps: &[Option<i64>],
    found: &mut Option<PhaseFault>,
)
    requires turn { IsTurn turn.now }
    requires checked { All (λ import. import.field < length stamps.now) checked.now }
    ensures { noted_fault found.new ≡ least_fault (noted_fault found.old) (stamp_faults (turn_of turn.now) stamps.now checked.now) }
{
    for number in 0..checked.len() {
        check_import(checked[number], turn, stamps, found);
    }
}

/// Checks the stamp of an import.
fn check_import(
    import: CheckedImport,
    turn: &Turn,
    stamps: &[Option<i64>],
    found: &mut Option<PhaseFault>,
)
    requires turn { IsTurn turn.now }
    requires import { import.field < length stamps.now }
    ensures { noted_fault found.new ≡ least_fault (noted_fault found.old) (stamp_fault (turn_of turn.now) stamps.now import) }
{
    match wanted_stamp(import.wanted, turn) {
        None => {}
        Some(time) => check_stamp(import, stamps[import.field as usize], time, found),
    }
}

/// The stamp that an import must have.
fn wanted_stamp(wanted: Wanted, turn: &Turn) -> Option<i64>
    requires { IsTurn turn.now }
    ensures { result ≡ wanted_stamp wanted (turn_of turn.now) }
{
    match wanted {
        Wanted::Current => Some(turn.time),
        Wanted::Next => Some(turn.time + turn.step),
        Wanted::Unchecked => None,
    }
}

/// Notes a fault unless an import's stamp is this time.
fn check_stamp(import: CheckedImport, stamp: Option<i64>, time: i64, found: &mut Option<PhaseFault>)
    ensures { noted_fault found.new ≡ least_fault (noted_fault found.old)
        (unless (is_stamp stamp time) (1 + import.number) (ImportFault import.field stamp time)) }
{
    if !is_stamp(stamp, time) {
        let kind = FoundKind::Import {
            field: import.field,
            found: stamp,
            wanted: time,
        };
        let place = 1 + u64::from(import.number);
        note(found, PhaseFault { place, kind });
    }
}

/// Whether a stamp is this time.
fn is_stamp(stamp: Option<i64>, time: i64) -> bool
    ensures { result ≡ is_stamp stamp time }
{
    match stamp {
        None => false,
        Some(stamp) => stamp == time,
    }
}
