//! An operation of a phase of a component on a block.

ghost use Rattle.std.specs.Prelude.{◌≡◌, ◌++◌, ◌+◌, ◌^◌, ◌<◌, ◌≤◌, All, List, Some, ℕ, length, slice_get};
ghost use Rattle.std.specs.List.{flat_map};
ghost use Rattle.cpl_block.specs.Frames.{places_in};
ghost use Rattle.cpl_block.specs.Rings.{IsRing};
ghost use Rattle.cpl_comp.specs.Components.{written_fields};
ghost use Rattle.cpl_comp.specs.Readings.{Reading};
ghost use Rattle.cpl_comp.specs.RunFaults.{average_faults, cell_faults, first_faults};
ghost use Rattle.cpl_comp.specs.Turns.{comp_after_run, fields_after_run};
ghost use Rattle.cpl_comp.specs.Worlds.{CompWorld, FieldWorld, field_value};
ghost use Rattle.cpl_comp.specs.declared.component.Phase.{Phase as Stage};
ghost use Rattle.cpl_entry.specs.Books.{entries_of};
ghost use Rattle.cpl_grid.specs.Parts.{cells_of_part};
ghost use Rattle.cpl_marks.specs.Faults.{least_fault, noted_fault};
ghost use Rattle.cpl_marks.specs.Plans.{is_connected};
ghost use Rattle.cpl_marks.specs.Turns.{IsTurn, turn_of};
ghost use Rattle.cpl_phase.specs.Assignments.{HaveRoom};
ghost use Rattle.cpl_phase.specs.Kept.{AreAccums, StandForKept, accum_at};
ghost use Rattle.cpl_phase.specs.Locals.{IsAccepted, IsAged, IsLocal, IsRealised, IsYoung, StandsForComp, comp_at_end, faults_on};
ghost use Rattle.cpl_phase.specs.Phases.{IsAfter, IsPhaseOn};
ghost use Rattle.cpl_phase.specs.Refreshed.{AreOnBlock};
ghost use Rattle.cpl_phase.specs.Rooms.{further_fields};
ghost use Rattle.cpl_phase.specs.Shown.{AreShownFor};
ghost use Rattle.cpl_phase.specs.Sites.{AreSites};
ghost use Rattle.cpl_phase.specs.Worlds.{HaveArrived, HoldFields};
ghost use Rattle.cpl_rule.specs.Assigned.{IsAsRoomy, IsScene, answers_of};
ghost use Rattle.cpl_rule.specs.Inputs.{AreFields, HaveNumbers};
ghost use Rattle.cpl_rule.specs.Moments.{IsAt, IsTimed, timing_of};

use crate::checking::check_ranges;
use crate::kept_checks::check_averages;
use crate::local::{Area, LocalComp};
use crate::showing::show_written;
use crate::sites::Sites;
use crate::spare::Spare;
use crate::updating::carry_out;
use cpl_base::Many;
use cpl_block::Frame;
use cpl_comp::{Comp, Phase};
use cpl_entry::EntryBook;
use cpl_field::Field;
use cpl_marks::{PhaseFault, Turn, check_marks, end_step};
use cpl_mediator::Accum;
use cpl_rule::{Scene, Times, moment_at};

impl LocalComp {
    /// Carries out an operation of the phase of a place: checks clock, stamps and averages, carries the phase out, checks its
    /// ranges, and ends the step where the operation is its last. The least fault is noted, and the operation goes on behind
    /// it. What other blocks own and the phase reads must have arrived in the ring. Takes no memory.
    ///
    /// Source: NUOPC Layer Reference, run phases of Model and Mediator.
    pub fn run(
        &mut self,
        comp: &Comp,
        times: Times,
        book: &EntryBook,
        phase: u8,
        turn: &Turn,
        found: &mut Option<PhaseFault>,
    )
        requires accepted { IsAccepted (length times.alarms.now) (entries_of book.now) comp.now }
        requires local { IsLocal comp.now self.old }
        requires young { IsYoung self.old }
        requires phase { phase < length comp.now.phases }
        requires turn { IsTurn turn.now }
        requires timed { IsTimed times turn.now.at }
        ensures local { IsLocal comp.now self.new }
        ensures frame { self.new.frame ≡ self.old.frame }
        ensures connected { self.new.connected ≡ self.old.connected }
        ensures aged { (done : ℕ) → IsAged done self.old → IsAged (done + 1) self.new }
        ensures after { (stage : Stage) (world : CompWorld) → slice_get comp.now.phases phase ≡ Some stage
            → StandsForComp comp.now world self.old → HaveArrived self.old.frame stage.halo.fields world.fields self.old.fields
            → StandsForComp comp.now
            (comp_after_run (timing_of times.entry) (answers_of (entries_of book.now)) comp.now stage (turn_of turn.now) world) self.new }
        ensures found { (stage : Stage) (world : CompWorld) → slice_get comp.now.phases phase ≡ Some stage
            → StandsForComp comp.now world self.old → HaveArrived self.old.frame stage.halo.fields world.fields self.old.fields
            → noted_fault found.new ≡ least_fault (noted_fault found.old)
            (faults_on self.old.frame comp.now stage (turn_of turn.now) (is_connected self.old.connected) world
            (fields_after_run (timing_of times.entry) (answers_of (entries_of book.now)) comp.now stage (turn_of turn.now) world.fields)) }
    {
        self.check_before(comp, phase, turn, found);
        self.carry(comp, times, book, phase, turn);
        self.check_after(comp, phase, found);
        self.end(comp, phase, turn);
    }

    /// Checks clock, stamps and averages.
    fn check_before(&self, comp: &Comp, phase: u8, turn: &Turn, found: &mut Option<PhaseFault>)
        requires accepted { IsRealised comp.now }
        requires local { IsLocal comp.now self.now }
        requires phase { phase < length comp.now.phases }
        requires turn { IsTurn turn.now }
        ensures { (stage : Stage) (world : CompWorld) → slice_get comp.now.phases phase ≡ Some stage → StandsForComp comp.now world self.now
            → noted_fault found.new ≡ least_fault (noted_fault found.old)
            (first_faults comp.now stage (turn_of turn.now) (is_connected self.now.connected) world ++ average_faults world.fields stage) }
    {
        let place = phase as usize;
        check_marks(
            comp.kind,
            &self.plans.items()[place],
            turn,
            &self.marks,
            found,
        );
        check_averages(&comp.phases.items()[place], self.accums.items(), found);
    }

    /// Carries a phase out, without an end of its step.
    fn carry(&mut self, comp: &Comp, times: Times, book: &EntryBook, phase: u8, turn: &Turn)
        requires accepted { IsAccepted (length times.alarms.now) (entries_of book.now) comp.now }
        requires local { IsLocal comp.now self.old }
        requires young { IsYoung self.old }
        requires phase { phase < length comp.now.phases }
        requires timed { IsTimed times turn.now.at }
        ensures local { IsLocal comp.now self.new }
        ensures frame { self.new.frame ≡ self.old.frame }
        ensures connected { self.new.connected ≡ self.old.connected }
        ensures marks { self.new.marks ≡ self.old.marks }
        ensures aged { (bound : ℕ) → All (λ accum. accum.count ≤ bound) self.old.accums → All (λ accum. accum.count ≤ bound + 1) self.new.accums }
        ensures after { (stage : Stage) (world : CompWorld) → slice_get comp.now.phases phase ≡ Some stage
            → StandsForComp comp.now world self.old → HaveArrived self.old.frame stage.halo.fields world.fields self.old.fields
            → StandsForComp comp.now
            (record world { fields = fields_after_run (timing_of times.entry) (answers_of (entries_of book.now)) comp.now stage (turn_of turn.now) world.fields }) self.new }
    {
        let stage = &comp.phases.items()[phase as usize];
        let scene = Scene {
            frame: self.frame,
            fields: comp.fields.items().len() as u16,
            moment: moment_at(times, turn.at, turn.substep),
        };
        carry_phase(
            &scene,
            book,
            &self.area,
            stage,
            &mut self.fields,
            &mut self.accums,
            &mut self.spare,
        );
        show_phase(
            &self.frame,
            &self.area.sites,
            stage,
            &self.fields,
            &mut self.shown,
        );
    }

    /// Checks the ranges of a phase.
    fn check_after(&self, comp: &Comp, phase: u8, found: &mut Option<PhaseFault>)
        requires accepted { IsRealised comp.now }
        requires local { IsLocal comp.now self.now }
        requires phase { phase < length comp.now.phases }
        ensures { (stage : Stage) (world : List FieldWorld) → slice_get comp.now.phases phase ≡ Some stage
            → HoldFields self.now.frame (length comp.now.fields) world self.now.fields
            → noted_fault found.new ≡ least_fault (noted_fault found.old)
            (flat_map (cell_faults world stage.ranges) (cells_of_part self.now.frame.grid self.now.frame.part)) }
    {
        let ranges = comp.phases.items()[phase as usize].ranges.items();
        check_ranges(
            &self.frame,
            &self.area.sites,
            self.fields.items(),
            ranges,
            found,
        );
    }

    /// Ends the step where an operation is its last.
    fn end(&mut self, comp: &Comp, phase: u8, turn: &Turn)
        requires accepted { IsRealised comp.now }
        requires local { IsLocal comp.now self.old }
        requires runs { self.old.marks.runs < 2 ^ 24 }
        requires phase { phase < length comp.now.phases }
        requires turn { IsTurn turn.now }
        ensures local { IsLocal comp.now self.new }
        ensures frame { self.new.frame ≡ self.old.frame }
        ensures connected { self.new.connected ≡ self.old.connected }
        ensures accums { self.new.accums ≡ self.old.accums }
        ensures aged { self.new.marks.runs ≤ self.old.marks.runs + 1 }
        ensures after { (stage : Stage) (world : CompWorld) → slice_get comp.now.phases phase ≡ Some stage → StandsForComp comp.now world self.old
            → StandsForComp comp.now (comp_at_end comp.now stage (turn_of turn.now) world) self.new }
    {
        end_step(
            comp.kind,
            &self.plans.items()[phase as usize],
            turn,
            &mut self.marks,
        );
    }
}

/// A phase, carried out over the fields of a component on a block.
fn carry_phase(
    scene: &Scene,
    book: &EntryBook,
    area: &Area,
    stage: &Phase,
    fields: &mut Many<Field>,
    accums: &mut Many<Accum>,
    spare: &mut Spare,
)
    requires scene { IsScene scene.now }
    requires ring { IsRing scene.now.frame area.now.ring }
    requires sites { AreSites scene.now.frame area.now.sites }
    requires phase { IsPhaseOn scene.now (entries_of book.now) stage.now }
    requires room { HaveRoom spare.old.room stage.now.sets }
    requires add_room { HaveRoom spare.old.room stage.now.adds }
    requires fields { AreFields scene.now.frame scene.now.fields fields.old }
    requires numbers { HaveNumbers scene.now.frame scene.now.fields fields.old }
    requires accums { AreAccums (length area.now.sites.homes.items) scene.now.fields accums.old }
    requires sums { All (λ row. length (accum_at accums.old row.field).sums ≡ length area.now.sites.homes.items) stage.now.adds }
    requires counts { All (λ row. (accum_at accums.old row.field).count < 2 ^ 24) stage.now.adds }
    requires count { further_fields stage.now ≤ length spare.old.fields }
    requires others { AreOnBlock scene.now.frame (length spare.old.fields) spare.old.fields }
    requires cells { length spare.old.cells ≡ length area.now.sites.homes.items }
    ensures after { (reading : Reading) (world : List FieldWorld)
        → IsAt scene.now.moment scene.now.frame.grid reading → reading.entries ≡ answers_of (entries_of book.now)
        → reading.value ≡ field_value world
        → HoldFields scene.now.frame scene.now.fields world fields.old
        → HaveArrived scene.now.frame stage.now.halo.fields world fields.old
        → StandForKept scene.now.frame scene.now.fields world accums.old
        → IsAfter scene.now reading world stage.now fields.new accums.new }
    ensures fields { AreFields scene.now.frame scene.now.fields fields.new }
    ensures numbers { HaveNumbers scene.now.frame scene.now.fields fields.new }
    ensures accums { AreAccums (length area.now.sites.homes.items) scene.now.fields accums.new }
    ensures sums { (k : ℕ) → length (accum_at accums.new k).sums ≡ length (accum_at accums.old k).sums }
    ensures aged { (bound : ℕ) → All (λ accum. accum.count ≤ bound) accums.old → All (λ accum. accum.count ≤ bound + 1) accums.new }
    ensures others { AreOnBlock scene.now.frame (length spare.old.fields) spare.new.fields }
    ensures cells { length spare.new.cells ≡ length spare.old.cells }
    ensures room { IsAsRoomy spare.old.room spare.new.room }
{
    carry_out(
        scene,
        book,
        &area.ring,
        &area.sites,
        stage,
        fields.as_mut_slice(),
        accums.as_mut_slice(),
        spare.fields.as_mut_slice(),
        spare.cells.values_mut(),
        &mut spare.room,
    );
}

/// Lines up the values of the fields that a phase gives new values.
fn show_phase(
    frame: &Frame,
    sites: &Sites,
    stage: &Phase,
    fields: &Many<Field>,
    shown: &mut Many<Field>,
)
    requires sites { AreSites frame.now sites.now }
    requires fields { All (λ field. length field ≡ places_in frame.now) fields.now }
    requires shown { All (λ values. length values ≡ length sites.now.homes.items) shown.old }
    requires few { length shown.old ≤ length fields.now }
    requires sets { All (λ row. row.field < length shown.old) stage.now.sets }
    requires merges { All (λ row. row.field < length shown.old) stage.now.merges }
    requires averages { All (λ k. k < length shown.old) stage.now.averages }
    ensures { AreShownFor frame.now (length sites.now.homes.items) (written_fields stage.now) fields.now shown.old shown.new }
{
    show_written(frame, sites, stage, fields.items(), shown.as_mut_slice());
}
