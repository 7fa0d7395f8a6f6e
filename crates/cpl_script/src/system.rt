//! An accepted configuration.

ghost use Rattle.std.specs.Prelude.{◌≡◌, ◌<◌, ◌≤◌, ◌^◌, ◌+◌, ◌++◌, List, Some, length, nat_le, slice_get, sum_by};
ghost use Rattle.std.specs.List.{All};
ghost use Rattle.cpl_base.specs.Gives.{Gives};
ghost use Rattle.cpl_base.specs.ResultChain.{ok_if};
ghost use Rattle.cpl_sequence.specs.Operations.{operations_of};
ghost use Rattle.cpl_script.specs.Drafts.{IsDraft, draft_numbers, links_from};
ghost use Rattle.cpl_script.specs.Halos.{comp_numbers};
ghost use Rattle.cpl_script.specs.Kept.{HasNearHalos, accepted_halos, accepted_ops};
ghost use Rattle.cpl_script.specs.Systems.{capped};

use crate::draft::{Draft, drafts_of};
use crate::fault::SystemFault;
use crate::halos::{HaloRoutes, halos_of, numbers_of_comps};
use crate::init_ops::init_ops;
use crate::link::Link;
use crate::parts::SystemParts;
use crate::routes::{links_of, numbers_of_drafts};
use cpl_base::Many;
use cpl_calendar::Cal;
use cpl_clock::Alarm;
use cpl_comp::Comp;
use cpl_route::Route;
use cpl_sequence::{Cursor, Op, Seq};
use std::alloc::Global;
use std::marker::Model;

/// The most operations that a system may have.
const MOST_OPS: u64 = 16_777_216;

/// The most numbers that its routes and halos may move when each is used once.
const MOST_NUMBERS: u64 = 33_554_432;

/// An accepted configuration: components with their connectors, the order of their initialisation and the run sequence
/// over them, the calendar, the start and the alarms.
///
/// Contracts see these parts. Beside them it keeps the routes of halos, and the operations of the initialisation.
///
/// Source: NUOPC Layer Reference, Driver.
#[derive(Drop)]
pub struct System {
    comps: Many<Comp>,
    links: Many<Link>,
    init: Many<u8>,
    seq: Seq,
    cal: Cal,
    start: i64,
    alarms: Many<Alarm>,
    pets: u8,
    halos: Vec<HaloRoutes>,
    init_ops: Vec<Op>,
}

impl Model for System {
    ghost use Rattle.cpl_script.specs.Couplings.{Coupling};
    ghost use Rattle.cpl_script.specs.Kept.{IsKept};
    ghost use Rattle.cpl_formula.specs.contracts.formula.Formula as formula;
    ghost use Rattle.cpl_sequence.specs.contracts.element.Element as element;
    ghost use Rattle.std.specs.Coded.{codes};

    ghost Value = { Coupling };

    ghost coded = { Prim.hlevel (codes, formula.the_row.coded, element.the_row.coded) };

    ghost view = { λ system. record {
      comps = system.comps;
      links = system.links;
      init = system.init;
      sequence = system.seq;
      timing = record { cal = system.cal; start = system.start; alarms = system.alarms };
      pets = system.pets;
    } };

    ghost invariant = { λ system. IsKept (record {
      comps = system.comps;
      links = system.links;
      init = system.init;
      sequence = system.seq;
      timing = record { cal = system.cal; start = system.start; alarms = system.alarms };
      pets = system.pets;
    })
        system.halos.items system.init_ops.items };
}

impl System {
    ghost use Rattle.cpl_script.specs.Halos.{halo_route_at};
    ghost use Rattle.cpl_script.specs.Operations.{init_ops, ops_of};
    ghost use Rattle.cpl_script.specs.Sound.{AreParts, IsCoupling, IsOpOf, IsPhaseOf};
    ghost use Rattle.cpl_script.specs.Systems.{system_of};

    /// The system of these parts. The parts were accepted one after another: components over so many PETs, the run
    /// sequence over them, pairs along its connectors, the order of initialisation by what the pairs need, and weights
    /// where a connector has them.
    ///
    /// Before memory is taken for them, operations and numbers are counted.
    ///
    /// Errors: `TooManyOps` exactly where there are more than 2^24 operations, with their number, capped at the greatest
    /// `u64`; else `TooManyRoutes` exactly where routes and halos together move more than 2^25 numbers when each is used
    /// once, with their number, capped likewise; `Memory`.
    ///
    /// Source: this project's own.
    #[tactic(auto, unfolding(crate::specs::Systems::coupling_of))]
    pub fn new(alloc: Global, parts: SystemParts) -> Result<System, SystemFault>
        requires { AreParts parts }
        ensures answer { Gives SystemFault.Memory (λ system. system) result (system_of parts) }
    {
        let SystemParts {
            comps,
            seq,
            pairs,
            init,
            weights,
            cal,
            start,
            alarms,
            pets,
        } = parts;
        let drafts = drafts_of(alloc, seq.links(), weights, pairs.items())?;
        let ops = accepted_ops(alloc, comps.items(), drafts.as_slice(), init.items(), &seq)?;
        let halos = accepted_halos(alloc, comps.items(), drafts.as_slice())?;
        let links = links_of(alloc, comps.items(), drafts)?;
        Ok(System {
            comps,
            links: Many::of(links),
            init,
            seq,
            cal,
            start,
            alarms,
            pets,
            halos,
            init_ops: ops,
        })
    }

    /// What holds of every system, in one record.
    ///
    /// Source: this project's own.
    pub fn facts(&self)
        ensures { IsCoupling self.now }
    {
        let _ = self.init_ops();
    }

    /// The components, in list order.
    ///
    /// Source: this project's own.
    pub fn comps(&self) -> &[Comp]
        ensures { result.now ≡ self.now.comps }
    {
        self.comps.items()
    }

    /// The connectors, in the order of their first lines.
    ///
    /// Source: this project's own.
    pub fn links(&self) -> &[Link]
        ensures { result.now ≡ self.now.links }
    {
        self.links.items()
    }

    /// The components by their places, in the order in which they are initialised.
    ///
    /// Source: this project's own.
    pub fn init(&self) -> &[u8]
        ensures { result.now ≡ self.now.init }
    {
        self.init.items()
    }

    /// The alarms.
    ///
    /// Source: this project's own.
    pub fn alarms(&self) -> &[Alarm]
        ensures { result.now ≡ self.now.timing.alarms }
    {
        self.alarms.items()
    }

    /// The calendar.
    ///
    /// Source: this project's own.
    pub fn cal(&self) -> Cal
        ensures { result ≡ self.now.timing.cal }
    {
        self.cal
    }

    /// The moment of the start, in seconds of the calendar.
    ///
    /// Source: this project's own.
    pub fn start(&self) -> i64
        ensures { result ≡ self.now.timing.start }
    {
        self.start
    }

    /// How many PETs there are, 1 to 64.
    ///
    /// Source: this project's own.
    pub fn pets(&self) -> u8
        ensures { result ≡ self.now.pets }
    {
        self.pets
    }

    /// How many seconds the run lasts.
    ///
    /// Source: this project's own.
    pub fn span(&self) -> i64
        ensures { result ≡ self.now.sequence.span }
    {
        self.seq.span()
    }

    /// Which cells PETs send each other before a phase of a component, or before its initialisation where no phase is
    /// given: those that its rules read beside the cell. The component is there, and the phase is one of it; both are
    /// places, from 0. Constant time.
    ///
    /// Source: ESMF Reference Manual, halo regions of Arrays.
    pub fn halo(&self, component: u8, phase: Option<u8>) -> &Route
        requires { IsPhaseOf self.now component phase }
        ensures { result.now ≡ halo_route_at self.now component phase }
    {
        let routes = &self.halos[usize::from(component)];
        match phase {
            None => &routes.start,
            Some(phase) => routes.phase(phase),
        }
    }

    /// How many operations there are, at most 2^24. Constant time.
    ///
    /// Source: this project's own.
    pub fn op_count(&self) -> u64
        ensures { result ≡ length (ops_of self.now) }
    {
        self.init_ops.len() as u64 + self.seq.op_count()
    }

    /// The k-th operation, from 0, of the initialisation and then of the run sequence; `k` is below their number. Takes no
    /// memory, and a division and a search at each level of the run sequence.
    ///
    /// Source: this project's own.
    pub fn op(&self, k: u64) -> Op
        requires { k < length (ops_of self.now) }
        ensures value { slice_get (ops_of self.now) k ≡ Some result }
        ensures of { IsOpOf self.now result }
    {
        let before = self.init_ops.len() as u64;
        if k < before {
            return self.init_ops[k as usize];
        }
        Cursor::op(&self.seq, k - before)
    }

    /// The run sequence.
    pub(crate) fn seq(&self) -> &Seq
        ensures { result.now ≡ self.now.sequence }
    {
        &self.seq
    }

    /// The operations of the initialisation.
    pub(crate) fn init_ops(&self) -> &[Op]
        ensures value { result.now ≡ init_ops self.now.comps self.now.links self.now.init }
        ensures coupling { IsCoupling self.now }
    {
        self.init_ops.as_slice()
    }
}

/// The operations of an initialisation, where there aren't too many with those of the run sequence.
fn accepted_ops(
    alloc: Global,
    comps: &[Comp],
    drafts: &[Draft],
    order: &[u8],
    seq: &Seq,
) -> Result<Vec<Op>, SystemFault>
    requires { length drafts.now ≤ 2 ^ 16 }
    ensures { Gives SystemFault.Memory (λ ops. ops.items) result (accepted_ops comps.now (links_from comps.now drafts.now) order.now seq.now) }
{
    let ops = init_ops(alloc, comps, drafts, order)?;
    check_ops(ops.as_slice(), seq)?;
    Ok(ops)
}

/// The routes of the halos of components, where these and the connectors don't move too many numbers.
fn accepted_halos(
    alloc: Global,
    comps: &[Comp],
    drafts: &[Draft],
) -> Result<Vec<HaloRoutes>, SystemFault>
    requires drafts { All (IsDraft comps.now) drafts.now }
    requires near { All HasNearHalos comps.now }
    ensures { Gives SystemFault.Memory (λ halos. halos.items) result (accepted_halos comps.now (sum_by (draft_numbers comps.now) drafts.now + sum_by comp_numbers comps.now)) }
{
    check_numbers(comps, drafts)?;
    let halos = halos_of(alloc, comps)?;
    Ok(halos)
}

/// Refuses too many operations: those of an initialisation and of a run sequence.
fn check_ops(init_ops: &[Op], seq: &Seq) -> Result<(), SystemFault>
    ensures { let total = length (init_ops.now ++ operations_of seq.now) in
        result ≡ ok_if (nat_le total (2 ^ 24)) (SystemFault.TooManyOps (capped total)) }
{
    let count = (init_ops.len() as u64).saturating_add(seq.op_count());
    if count > MOST_OPS {
        return Err(SystemFault::TooManyOps { count });
    }
    Ok(())
}

/// Refuses routes and halos that move too many numbers.
fn check_numbers(comps: &[Comp], drafts: &[Draft]) -> Result<(), SystemFault>
    requires drafts { All (IsDraft comps.now) drafts.now }
    requires near { All HasNearHalos comps.now }
    ensures { let total = sum_by (draft_numbers comps.now) drafts.now + sum_by comp_numbers comps.now in
        Gives SystemFault.Memory (λ unit. unit) result (ok_if (nat_le total (2 ^ 25)) (SystemFault.TooManyRoutes (capped total))) }
{
    let moved = numbers_of_drafts(comps, drafts)?;
    let count = moved.saturating_add(numbers_of_comps(comps));
    if count > MOST_NUMBERS {
        return Err(SystemFault::TooManyRoutes { count });
    }
    Ok(())
}
