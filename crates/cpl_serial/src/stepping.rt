//! Operations of phases and initialisations, on the components of a system.

ghost use Rattle.std.specs.Prelude.{◌≡◌, ◌+◌, ◌<◌, All, map, ℕ, length};
ghost use Rattle.cpl_comp.specs.declared.component.Comp.{Comp};
ghost use Rattle.cpl_entry.specs.Books.{entries_of};
ghost use Rattle.cpl_marks.specs.Faults.{least_fault, noted_fault};
ghost use Rattle.cpl_marks.specs.Turns.{turn_of};
ghost use Rattle.cpl_phase.specs.Locals.{IsAged, IsYoung};
ghost use Rattle.cpl_rule.specs.Assigned.{answers_of};
ghost use Rattle.cpl_rule.specs.Moments.{timing_of};
ghost use Rattle.cpl_script.specs.SerialRun.{phase_faults, world_after_init, world_after_run};
ghost use Rattle.cpl_script.specs.Sound.{CallsEntries, IsRunOf};
ghost use Rattle.cpl_script.specs.Transfers.{World};
ghost use Rattle.cpl_serial.specs.Engines.{AreWhole, StandForWorld};

use cpl_base::Many;
use cpl_entry::EntryBook;
use cpl_marks::{PhaseFault, Turn};
use cpl_phase::LocalComp;
use cpl_rule::Times;
use cpl_script::System;

/// Carries out an operation of a phase of the component of a place, and notes the least fault. Takes no memory.
pub(crate) fn run_at(
    system: &System,
    book: &EntryBook,
    locals: &mut Many<LocalComp>,
    component: u8,
    phase: u8,
    turn: &Turn,
    found: &mut Option<PhaseFault>,
)
    requires calls { CallsEntries (map (λ entry. entry.inputs) (entries_of book.now)) system.now }
    requires whole { AreWhole system.now locals.old }
    requires young { All IsYoung locals.old }
    requires op { IsRunOf system.now component phase turn.now.time turn.now.step turn.now.at turn.now.substep }
    ensures whole { AreWhole system.now locals.new }
    ensures aged { (done : ℕ) → All (IsAged done) locals.old → All (IsAged (done + 1)) locals.new }
    ensures after { (world : World) → StandForWorld system.now world locals.old
        → StandForWorld system.now (world_after_run system.now (answers_of (entries_of book.now)) world component phase (turn_of turn.now)) locals.new }
    ensures found { (world : World) → StandForWorld system.now world locals.old
        → noted_fault found.new ≡ least_fault (noted_fault found.old)
        (phase_faults system.now (answers_of (entries_of book.now)) world component phase (turn_of turn.now)) }
{
    system.facts();
    let _ = book.signs();
    let times = times_of(system);
    let place = component as usize;
    let comp = &system.comps()[place];
    let slots = locals.as_mut_slice();
    slots[place].run(comp, times, book, phase, turn, found);
}

/// Initialises the component of a place. Takes no memory.
pub(crate) fn init_at(
    system: &System,
    book: &EntryBook,
    locals: &mut Many<LocalComp>,
    component: u8,
)
    requires calls { CallsEntries (map (λ entry. entry.inputs) (entries_of book.now)) system.now }
    requires whole { AreWhole system.now locals.old }
    requires component { component < length system.now.comps }
    ensures whole { AreWhole system.now locals.new }
    ensures aged { (done : ℕ) → All (IsAged done) locals.old → All (IsAged done) locals.new }
    ensures after { (world : World) → StandForWorld system.now world locals.old
        → StandForWorld system.now (world_after_init system.now (answers_of (entries_of book.now)) world component) locals.new }
{
    system.facts();
    let _ = book.signs();
    let times = times_of(system);
    let place = component as usize;
    let comp = &system.comps()[place];
    let slots = locals.as_mut_slice();
    slots[place].init(comp, times, book);
}

/// When a run of a system takes place.
pub(crate) fn times_of(system: &System) -> Times<'_>
    ensures { timing_of result ≡ system.now.timing }
{
    Times {
        cal: system.cal(),
        start: system.start(),
        alarms: system.alarms(),
    }
}
