//! The initialisation of a component on a block.

ghost use Rattle.std.specs.Prelude.{◌≡◌, ◌<◌, pos, ℕ, length};
ghost use Rattle.cpl_comp.specs.Turns.{comp_after_init};
ghost use Rattle.cpl_comp.specs.Worlds.{CompWorld};
ghost use Rattle.cpl_entry.specs.Books.{entries_of};
ghost use Rattle.cpl_phase.specs.Locals.{IsAccepted, IsAged, IsLocal, StandsForComp, comp_started};
ghost use Rattle.cpl_phase.specs.Worlds.{HaveArrived};
ghost use Rattle.cpl_rule.specs.Assigned.{answers_of};
ghost use Rattle.cpl_rule.specs.Moments.{IsTimed, timing_of};
ghost use Rattle.cpl_sweep.specs.Places.{field_at};

use crate::local::LocalComp;
use crate::showing::show_places;
use crate::starting::start_all;
use cpl_comp::Comp;
use cpl_entry::EntryBook;
use cpl_marks::stamp_start;
use cpl_rule::{Scene, Times, moment_at};

impl LocalComp {
    /// Initialises the component: its variables and exports have the values of their start rules, and its exports the stamp 0.
    /// Start rules read the moment of the start. What other blocks own and they read must have arrived in the ring. Takes no
    /// memory.
    ///
    /// Source: NUOPC Layer Reference, initialisation; start rules are this project's own.
    pub fn init(&mut self, comp: &Comp, times: Times, book: &EntryBook)
        requires accepted { IsAccepted (length times.alarms.now) (entries_of book.now) comp.now }
        requires local { IsLocal comp.now self.old }
        requires timed { IsTimed times (pos 0) }
        ensures local { IsLocal comp.now self.new }
        ensures frame { self.new.frame ≡ self.old.frame }
        ensures connected { self.new.connected ≡ self.old.connected }
        ensures aged { (done : ℕ) → IsAged done self.old → IsAged done self.new }
        ensures after { (world : CompWorld) → StandsForComp comp.now world self.old
            → HaveArrived self.old.frame comp.now.start_halo.fields world.fields self.old.fields
            → StandsForComp comp.now (comp_after_init (timing_of times.entry) (answers_of (entries_of book.now)) comp.now world) self.new }
    {
        self.start(comp, times, book);
        stamp_start(self.exports.items(), &mut self.marks);
    }

    /// Carries out the start rules, without a stamp.
    fn start(&mut self, comp: &Comp, times: Times, book: &EntryBook)
        requires accepted { IsAccepted (length times.alarms.now) (entries_of book.now) comp.now }
        requires local { IsLocal comp.now self.old }
        requires timed { IsTimed times (pos 0) }
        ensures local { IsLocal comp.now self.new }
        ensures frame { self.new.frame ≡ self.old.frame }
        ensures connected { self.new.connected ≡ self.old.connected }
        ensures marks { self.new.marks ≡ self.old.marks }
        ensures accums { self.new.accums ≡ self.old.accums }
        ensures after { (world : CompWorld) → StandsForComp comp.now world self.old
            → HaveArrived self.old.frame comp.now.start_halo.fields world.fields self.old.fields
            → StandsForComp comp.now (comp_started (timing_of times.entry) (answers_of (entries_of book.now)) comp.now world) self.new }
    {
        let scene = Scene {
            frame: self.frame,
            fields: comp.fields.items().len() as u16,
            moment: moment_at(times, 0, 0),
        };
        start_all(
            &scene,
            book,
            &self.area.ring,
            comp.start_halo.fields.items(),
            comp.fields.items(),
            self.started.items(),
            self.fields.as_mut_slice(),
            self.spare.fields.as_mut_slice(),
            &mut self.spare.room,
        );
        show_places(
            &self.frame,
            &self.area.sites,
            self.started.items(),
            self.fields.items(),
            self.shown.as_mut_slice(),
        );
    }

    /// The values of the field of a place at the block's cells, in the order of the cells: what the component's world has
    /// there, by `StandsForComp`.
    ///
    /// Source: this project's own.
    pub fn values(&self, field: u16) -> &[i64]
        requires { field < length self.now.shown }
        ensures { result.now ≡ field_at self.now.shown field }
    {
        self.shown.items()[field as usize].values()
    }
}
