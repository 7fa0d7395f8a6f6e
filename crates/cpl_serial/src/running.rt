//! The serial run of a system.

ghost use Rattle.std.specs.Prelude.{◌≡◌, ◌≢◌, ◌+◌, ◌^◌, ◌<◌, ◌++◌, [], IfOk, Some, ℕ, length, map, slice_get};
ghost use Rattle.cpl_entry.specs.Books.{entries_of};
ghost use Rattle.cpl_rule.specs.Assigned.{answers_of};
ghost use Rattle.cpl_script.specs.Operations.{ops_of};
ghost use Rattle.cpl_script.specs.SerialRun.{asked_rows, comp_stop, found_in, rows_of, serial_outcome};
ghost use Rattle.cpl_marks.specs.Faults.{fault_of};
ghost use Rattle.cpl_phase.specs.declared.local.LocalComp.{LocalComp as Local};
ghost use Rattle.cpl_script.specs.Sound.{CallsEntries, IsOpOf};
ghost use Rattle.cpl_script.specs.Transfers.{World as SystemWorld, comp_at};
ghost use Rattle.cpl_serial.specs.Engines.{StandForWorld};
ghost use Rattle.cpl_serial.specs.Runs.{HasCome, IsCursorAt, IsPlacedFault, StopsOrComes};
ghost use Rattle.cpl_serial.specs.Worlds.{IsMadeFor, run_component};

use crate::ending::{ends_of, stops_of};
use crate::stop::Stop;
use crate::tracing::push_rows;
use crate::world::World;
use cpl_base::{Many, Memory};
use cpl_entry::EntryBook;
use cpl_marks::PhaseFault;
use cpl_script::{Found, OpCursor, Outcome, System, trace_rows};
use cpl_sequence::Op;
use cpl_trace::TraceRow;
use std::alloc::Global;

/// How many numbers of faults an operation has.
const NUMBERS_OF_OP: u64 = 16_777_216;

/// The serial run of a system: each of its operations in turn, up to its end or its first fault; with the rows of its trace
/// where it is asked for. The system's native rules call entries of this book. All memory is taken before the first
/// operation, but for what the outcome holds.
///
/// Errors: `Memory` where memory runs out.
///
/// Source: this project's own.
pub fn serial_run(
    alloc: Global,
    system: &System,
    book: &EntryBook,
    trace: bool,
) -> Result<Outcome, Memory>
    requires { CallsEntries (map (λ entry. entry.inputs) (entries_of book.now)) system.now }
    ensures { IfOk result (λ outcome. outcome ≡ serial_outcome system.now (answers_of (entries_of book.now)) trace) }
{
    let mut world = World::new(alloc, system)?;
    let mut rows = room_for_rows(alloc, system, trace)?;
    let stop = run_ops(alloc, system, book, trace, &mut world, &mut rows)?;
    match stop {
        None => {
            let comps = ends_of(alloc, system, &world.comps)?;
            let outcome = Outcome {
                done: system.op_count(),
                comps,
                fault: None,
                trace: Many::of(rows),
            };
            Ok(outcome)
        }
        Some(stop) => {
            let outcome = Outcome {
                done: stop.op,
                comps: stop.comps,
                fault: Some(stop.found),
                trace: Many::of(rows),
            };
            Ok(outcome)
        }
    }
}

/// An empty trace with room for all its rows, where it is asked for.
fn room_for_rows(alloc: Global, system: &System, trace: bool) -> Result<Vec<TraceRow>, Memory>
    ensures { IfOk result (λ rows. rows.items ≡ []) }
{
    if !trace {
        return Ok(Vec::new(alloc));
    }
    let count = trace_rows(alloc, system)?;
    let rows = Vec::with_capacity(alloc, count as usize)?;
    Ok(rows)
}

/// Carries out all operations, up to the first that finds a fault.
fn run_ops(
    alloc: Global,
    system: &System,
    book: &EntryBook,
    trace: bool,
    world: &mut World,
    rows: &mut Vec<TraceRow>,
) -> Result<Option<Stop>, Memory>
    requires calls { CallsEntries (map (λ entry. entry.inputs) (entries_of book.now)) system.now }
    requires start { HasCome system.now (answers_of (entries_of book.now)) trace 0 world.old rows.old.items }
    ensures { IfOk result (StopsOrComes system.now (answers_of (entries_of book.now)) trace (length (ops_of system.now)) world.new rows.new.items) }
{
    let mut cursor = OpCursor::start(alloc, system)?;
    for k in 0..system.op_count() {
        let stop = run_next(alloc, system, book, trace, k, &mut cursor, world, rows)?;
        if stop.is_some() {
            return Ok(stop);
        }
    }
    Ok(None)
}

/// Carries out the next operation of a cursor, which is that of a number.
fn run_next(
    alloc: Global,
    system: &System,
    book: &EntryBook,
    trace: bool,
    k: u64,
    cursor: &mut OpCursor,
    world: &mut World,
    rows: &mut Vec<TraceRow>,
) -> Result<Option<Stop>, Memory>
    requires calls { CallsEntries (map (λ entry. entry.inputs) (entries_of book.now)) system.now }
    requires op { k < length (ops_of system.now) }
    requires cursor { IsCursorAt system.now k cursor.old }
    requires come { HasCome system.now (answers_of (entries_of book.now)) trace k world.old rows.old.items }
    ensures cursor { IsCursorAt system.now (k + 1) cursor.new }
    ensures comes { IfOk result (StopsOrComes system.now (answers_of (entries_of book.now)) trace (k + 1) world.new rows.new.items) }
{
    let next = cursor.next(system);
    match next {
        None => unreachable!(),
        Some(op) => run_op(alloc, system, book, trace, k, op, world, rows),
    }
}

/// Carries out the operation of a number.
fn run_op(
    alloc: Global,
    system: &System,
    book: &EntryBook,
    trace: bool,
    k: u64,
    op: Op,
    world: &mut World,
    rows: &mut Vec<TraceRow>,
) -> Result<Option<Stop>, Memory>
    requires calls { CallsEntries (map (λ entry. entry.inputs) (entries_of book.now)) system.now }
    requires there { slice_get (ops_of system.now) k ≡ Some op }
    requires op { IsOpOf system.now op }
    requires come { HasCome system.now (answers_of (entries_of book.now)) trace k world.old rows.old.items }
    ensures { IfOk result (StopsOrComes system.now (answers_of (entries_of book.now)) trace (k + 1) world.new rows.new.items) }
{
    system.facts();
    let runs = runs_of(system, world, op);
    let mut found = None;
    world.apply_op(system, book, op, &mut found);
    match found {
        None => {
            trace_op(system, trace, k, op, world, rows)?;
            Ok(None)
        }
        Some(fault) => {
            let stop = stop_at(alloc, k, component_of(op), runs, fault, world)?;
            Ok(Some(stop))
        }
    }
}

/// The component of an operation of a phase, 0 of others.
fn component_of(op: Op) -> u8
    ensures { result ≡ run_component op }
{
    match op {
        Op::Init { .. } => 0,
        Op::Link { .. } => 0,
        Op::Run { component, .. } => component,
    }
}

/// How many runs have ended of the component of an operation of a phase; of another operation nothing is said.
fn runs_of(system: &System, world: &World, op: Op) -> u32
    requires made { IsMadeFor system.now world.now }
    requires op { IsOpOf system.now op }
    ensures { (w : SystemWorld) → StandForWorld system.now w world.now.comps → result ≡ (comp_at w (run_component op)).runs }
{
    system.facts();
    let component = component_of(op) as usize;
    world.comps.items()[component].marks.runs
}

/// The stop of a run at a fault of an operation: of all components as many runs have ended as before it, of its own component
/// so many.
fn stop_at(
    alloc: Global,
    op: u64,
    component: u8,
    runs: u32,
    fault: PhaseFault,
    world: &World,
) -> Result<Stop, Memory>
    requires op { op < 2 ^ 24 }
    requires fault { IsPlacedFault fault }
    ensures op { IfOk result (λ stop. stop.op ≡ op) }
    ensures found { IfOk result (λ stop. stop.found ≡ found_in op component (fault_of fault)) }
    ensures comps { (before : SystemWorld) → length before ≡ length world.now.comps → (comp_at before component).runs ≡ runs
        → ((c : ℕ) (local : Local) → c ≢ component → slice_get world.now.comps c ≡ Some local → (comp_at before c).runs ≡ local.marks.runs)
        → IfOk result (λ stop. stop.comps ≡ map comp_stop before) }
{
    let comps = stops_of(alloc, &world.comps, component, runs)?;
    let found = Found {
        code: op * NUMBERS_OF_OP + fault.place,
        component,
        kind: fault.kind,
    };
    let stop = Stop { op, comps, found };
    Ok(stop)
}

/// Puts the rows of an operation behind those of a trace, where it is asked for.
fn trace_op(
    system: &System,
    trace: bool,
    k: u64,
    op: Op,
    world: &World,
    rows: &mut Vec<TraceRow>,
) -> Result<(), Memory>
    requires op { IsOpOf system.now op }
    requires made { IsMadeFor system.now world.now }
    ensures { (w : SystemWorld) → StandForWorld system.now w world.now.comps
        → IfOk result (λ _. rows.new.items ≡ rows.old.items ++ asked_rows trace (rows_of system.now w k op)) }
{
    match op {
        Op::Init { .. } => Ok(()),
        Op::Link { .. } => Ok(()),
        Op::Run {
            component,
            phase,
            last,
            ..
        } => {
            if trace && last {
                let place = component as usize;
                let comp = &system.comps()[place];
                let local = &world.comps.items()[place];
                push_rows(rows, comp, local, k, component, phase)?;
            }
            Ok(())
        }
    }
}
