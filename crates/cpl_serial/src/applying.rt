//! Operations applied to a world, and its values.

ghost use Rattle.std.specs.Prelude.{◌≡◌, ◌+◌, ◌<◌, All, IfOk, Some, map, ℕ, length, slice_get};
ghost use Rattle.cpl_comp.specs.Readings.{EntryAnswers};
ghost use Rattle.cpl_comp.specs.Worlds.{field_at};
ghost use Rattle.cpl_entry.specs.Books.{entries_of};
ghost use Rattle.cpl_marks.specs.Faults.{least_fault, noted_fault};
ghost use Rattle.cpl_phase.specs.Locals.{IsAged, IsYoung};
ghost use Rattle.cpl_rule.specs.Assigned.{answers_of};
ghost use Rattle.cpl_script.specs.Couplings.{Coupling};
ghost use Rattle.cpl_script.specs.Operations.{ops_of};
ghost use Rattle.cpl_script.specs.SerialRun.{world_after, world_before};
ghost use Rattle.cpl_script.specs.Sound.{CallsEntries, IsOpOf};
ghost use Rattle.cpl_script.specs.Transfers.{World as SystemWorld, comp_at};
ghost use Rattle.cpl_serial.specs.Engines.{StandForWorld};
ghost use Rattle.cpl_serial.specs.Worlds.{HasField, IsMadeFor, IsWorldBefore, op_faults};

use crate::linking::link_at;
use crate::opening::{buffers_of, open_comps};
use crate::stepping::{init_at, run_at};
use crate::world::World;
use cpl_base::Memory;
use cpl_entry::EntryBook;
use cpl_marks::{PhaseFault, Turn};
use cpl_script::System;
use cpl_sequence::Op;
use std::alloc::Global;

impl World {
    /// The world of a system before its first operation: all clocks at 0, all values 0, no field with a stamp. All memory is
    /// taken here: for each field a value a cell of its component's grid and of the ring around it, twice for those that are
    /// worked out, and for each kept field a sum a cell.
    ///
    /// Errors: `Memory` where memory runs out.
    ///
    /// Source: this project's own.
    pub fn new(alloc: Global, system: &System) -> Result<World, Memory>
        ensures { IfOk result (λ world. (entries : EntryAnswers) → IsWorldBefore system.now entries 0 world) }
    {
        let comps = open_comps(alloc, system)?;
        let buffers = buffers_of(alloc, system)?;
        let world = World { comps, buffers };
        Ok(world)
    }

    /// Applies the operation of a number, which is the number of operations applied so far: the world is the system's before
    /// the next one. The world was made for this system, and the system's native rules call entries of this book, the same
    /// at each call. Takes no memory.
    ///
    /// Source: this project's own.
    pub fn apply(&mut self, system: &System, book: &EntryBook, k: u64)
        requires calls { CallsEntries (map (λ entry. entry.inputs) (entries_of book.now)) system.now }
        requires op { k < length (ops_of system.now) }
        requires before { IsWorldBefore system.now (answers_of (entries_of book.now)) k self.old }
        ensures { IsWorldBefore system.now (answers_of (entries_of book.now)) (k + 1) self.new }
    {
        system.facts();
        let op = system.op(k);
        self.apply_op(system, book, op, &mut None);
    }

    /// Applies an operation, and notes the least of the faults that it finds.
    pub(crate) fn apply_op(
        &mut self,
        system: &System,
        book: &EntryBook,
        op: Op,
        found: &mut Option<PhaseFault>,
    )
        requires calls { CallsEntries (map (λ entry. entry.inputs) (entries_of book.now)) system.now }
        requires made { IsMadeFor system.now self.old }
        requires young { All IsYoung self.old.comps }
        requires op { IsOpOf system.now op }
        ensures made { IsMadeFor system.now self.new }
        ensures aged { (done : ℕ) → All (IsAged done) self.old.comps → All (IsAged (done + 1)) self.new.comps }
        ensures after { (world : SystemWorld) → StandForWorld system.now world self.old.comps
            → StandForWorld system.now (world_after system.now (answers_of (entries_of book.now)) world op) self.new.comps }
        ensures found { (world : SystemWorld) → StandForWorld system.now world self.old.comps
            → noted_fault found.new ≡ least_fault (noted_fault found.old) (op_faults system.now (answers_of (entries_of book.now)) world op) }
    {
        match op {
            Op::Init { component } => init_at(system, book, &mut self.comps, component),
            Op::Link { link, at_init } => {
                link_at(system, &mut self.comps, &mut self.buffers, link, at_init)
            }
            Op::Run {
                component,
                phase,
                time,
                step,
                at,
                substep,
                first,
                last,
            } => {
                let turn = Turn {
                    time,
                    step,
                    at,
                    substep,
                    first,
                    last,
                };
                run_at(
                    system,
                    book,
                    &mut self.comps,
                    component,
                    phase,
                    &turn,
                    found,
                )
            }
        }
    }

    /// The values of a field of a component, at the cells of its grid in the order of their sequence indices. The component
    /// is one of the system's, and the field is one of it; both are places, from 0.
    ///
    /// Source: this project's own.
    pub fn values(&self, component: u8, field: u16) -> &[i64]
        requires { HasField self.now component field }
        ensures { (coupling : Coupling) (entries : EntryAnswers) (k : ℕ) → IsWorldBefore coupling entries k self.now
            → result.now ≡ (field_at (comp_at (world_before coupling entries k) component).fields field).values }
    {
        self.comps.items()[component as usize].values(field)
    }
}
