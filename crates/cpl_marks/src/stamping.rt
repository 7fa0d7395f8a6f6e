//! What the end of a step and an initialisation do to clock, number of runs and stamps.

ghost use Rattle.std.specs.Prelude.{◌≡◌, ◌+◌, ◌-◌, ◌^◌, ◌<◌, ◌≤◌, All, Bool, List, length};
ghost use Rattle.cpl_comp.specs.Marks.{marks_after_init, marks_after_run, stamps_at};
ghost use Rattle.cpl_comp.specs.Turns.{places_of, step_end};
ghost use Rattle.cpl_comp.specs.declared.component.Comp.{Comp};
ghost use Rattle.cpl_comp.specs.declared.component.Phase.{Phase};
ghost use Rattle.cpl_comp.specs.declared.component.Role.TheVariants.{Export as ExportRole};
ghost use Rattle.cpl_marks.specs.Held.{marks_in};
ghost use Rattle.cpl_marks.specs.Plans.{IsPlanOf, IsPlanWithin};
ghost use Rattle.cpl_marks.specs.Turns.{IsTurn, turn_of};

use crate::marks::Marks;
use crate::plan::StampPlan;
use crate::turn::Turn;
use cpl_comp::Kind;

/// What the end of an operation does to clock, number of runs and stamps: where it is the last of its step, a model's clock
/// moves to the end of the step and a mediator's to the step's time, the exports of the plan are stamped with that time, and
/// a run more has ended; else nothing. Takes no memory.
///
/// Source: NUOPC Layer Reference, time stamps of exports by Model and Mediator.
pub fn end_step(kind: Kind, plan: &StampPlan, turn: &Turn, marks: &mut Marks)
    requires turn { IsTurn turn.now }
    requires plan { IsPlanWithin (length marks.old.stamps) plan.now }
    requires runs { marks.old.runs < 2 ^ 32 - 1 }
    ensures marks { (comp : Comp) (phase : Phase) (connected : List Bool) → IsPlanOf comp phase connected plan.now → comp.kind ≡ kind
        → marks_in marks.new ≡ marks_after_run comp phase (turn_of turn.now) (marks_in marks.old) }
    ensures stamps { length marks.new.stamps ≡ length marks.old.stamps }
    ensures aged { marks.new.runs ≤ marks.old.runs + 1 }
{
    if turn.last {
        let time = step_end(kind, turn);
        stamp(plan.stamped.items(), time, marks.stamps.as_mut_slice());
        marks.clock = time;
        marks.runs += 1;
    }
}

/// Where a step leads.
fn step_end(kind: Kind, turn: &Turn) -> i64
    requires { IsTurn turn.now }
    ensures { result ≡ step_end kind (turn_of turn.now) }
{
    match kind {
        Kind::Model => turn.time + turn.step,
        Kind::Mediator => turn.time,
    }
}

/// What an initialisation does to stamps: each export has the stamp 0. Takes no memory.
///
/// Source: this project's own.
pub fn stamp_start(exports: &[u16], marks: &mut Marks)
    requires { All (λ k. k < length marks.old.stamps) exports.now }
    ensures marks { (comp : Comp) → exports.now ≡ places_of ExportRole comp.fields
        → marks_in marks.new ≡ marks_after_init comp (marks_in marks.old) }
    ensures stamps { length marks.new.stamps ≡ length marks.old.stamps }
{
    stamp(exports, 0, marks.stamps.as_mut_slice());
}

/// Sets the stamps of some places to a time.
fn stamp(places: &[u16], time: i64, stamps: &mut [Option<i64>])
    requires { All (λ k. k < length stamps.old) places.now }
    ensures { stamps.new ≡ stamps_at time stamps.old places.now }
{
    for number in 0..places.len() {
        stamps[places[number] as usize] = Some(time);
    }
}
