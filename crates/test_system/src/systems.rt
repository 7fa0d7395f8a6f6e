//! Systems of small files: their operations, routes and halos; and systems that are as large as they may be.

ghost use Rattle.std.specs.Prelude.{IsTrue, None, Some};
ghost use Rattle.cpl_script.specs.Sound.{IsPhaseOf};

use crate::making::system_of;
use cpl_base::write_number;
use cpl_calendar::Cal;
use cpl_route::Route;
use cpl_script::{OpCursor, System, SystemFault, trace_rows};
use cpl_sequence::Op;
use std::alloc::Global;
use std::process::Abort;
use std::test::Fail;

/// A producer and a consumer on one PET: three steps, in which the consumer takes what the producer made before.
const PAIR: &[u8] =
    b"EARTH_component_list: A B\ndictionary::\nlevel m\n::\nA_grid: 1 1\nA_export::\nx level m = 0\n::\nA_phase_run::\nx = x + 1\n::\nB_grid: 1 1\nB_vars::\ny = 0\n::\nB_import::\nx level m\n::\nB_phase_run::\ny = y + x\n::\nrunSeq::\n@1:3\nA -> B\nA\nB\n@\n::\n";

/// The same over five cells and three PETs, of which both have the second; one step.
const SPREAD: &[u8] =
    b"EARTH_component_list: A B\ndictionary::\nlevel m\n::\nA_grid: 5 1\nA_export::\nx level m = 0\n::\nA_phase_run::\nx = x + 1\n::\nB_grid: 5 1\nB_vars::\ny = 0\n::\nB_import::\nx level m init\n::\nB_phase_run::\ny = y + x\n::\nrunSeq::\n@1:1\nA -> B\nA\nB\n@\n::\nA_petlist_bounds: 0 2\nB_petlist_bounds: 1 2\n";

/// A ring of three cells on three PETs, each of which reads both others.
const RING: &[u8] =
    b"EARTH_component_list: A\ndictionary::\n::\nA_grid: 3 1 periodic\nA_vars::\nx = s\n::\nA_phase_run::\nx = x[1,0] + x[-2,0]\n::\nrunSeq::\n@1:1\nA\n@\n::\nA_petlist_bounds: 0 2\n";

/// A mediator with two phases, of which the second runs after the steps.
const MEANS: &[u8] =
    b"EARTH_component_list: A B\ndictionary::\nlevel m\n::\nA_grid: 1 1\nA_export::\nx level m = 1\n::\nA_phase_run::\nx = x + x\n::\nB_grid: 1 1\nB_vars::\ny = 0\n::\nB_import::\nx level m\n::\nB_phase_run::\nadd y = x\n::\nrunSeq::\n@1:3\nA -> B\nB\nA\n@\n@1:1\nB mean\n@\n::\nB_kind: mediator\nB_phases: run mean\nB_phase_mean::\naverage y\n::\n";

/// One cell that takes from the first and the third of three, which two PETs have.
const WEIGHED: &[u8] =
    b"EARTH_component_list: A B\ndictionary::\nlevel m\n::\nA_grid: 3 1\nA_export::\nx level m = 0\n::\nA_phase_run::\nx = x\n::\nB_grid: 1 1\nB_vars::\ny = 0\n::\nB_import::\nx level m\n::\nB_phase_run::\ny = y + x\n::\nrunSeq::\n@1:1\nA -> B :remapMethod=weights:weightFile=w.csv\nA\nB\n@\n::\nA_petlist_bounds: 0 1\nB_petlist_bounds: 1 1\n";

/// The weights for it.
const WEIGHTS: &[u8] = b"1,1,0.5\n3,1,0.5\n";

/// One component without connectors, and how long its loop lasts.
const STEPS: &[u8] =
    b"EARTH_component_list: A\ndictionary::\n::\nA_grid: 1 1\nA_vars::\nx = 0\n::\nA_phase_run::\nx = x + 1\n::\nrunSeq::\n@1:";

/// A ring of 64 columns on as many PETs, and eight phases that read four columns beside the own one.
const WIDE: &[u8] =
    b"dictionary::\n::\nA_grid: 64 16384 periodic\nA_petlist_bounds: 0 63\nA_vars::\nx = 0\n::\nA_phases: a b c d e f g h\nrunSeq::\n@1:1\nA a\n@\n::\n";

/// One more component, of two cells on two PETs, whose left cell reads the right one.
const NARROW: &[u8] =
    b"B_grid: 2 1\nB_petlist_bounds: 0 1\nB_vars::\nx = 0\n::\nB_phase_run::\nx = x[1,0]\n::\n";

/// The system of a file, which isn't too large.
fn accepted(
    rt: &impl Abort,
    alloc: Global,
    file: &[u8],
    pets: u8,
    weights: &[u8],
) -> Result<System, Fail> {
    let made = system_of(alloc, file, pets, weights)?;
    assert!(rt; made.is_ok());
    Ok(made?)
}

/// Why a file makes no system.
fn refused(rt: &impl Abort, alloc: Global, file: &[u8], pets: u8) -> Result<SystemFault, Fail> {
    match system_of(alloc, file, pets, b"")? {
        Ok(_) => {
            assert!(rt; false);
            Ok(SystemFault::Memory)
        }
        Err(fault) => Ok(fault),
    }
}

/// A run of a whole step.
fn run(component: u8, phase: u8, time: i64) -> Op {
    Op::Run {
        component,
        phase,
        time,
        step: 1,
        at: time,
        substep: 1,
        first: true,
        last: true,
    }
}

/// A connector that runs in the sequence.
fn link(at_init: bool) -> Op {
    Op::Link { link: 0, at_init }
}

/// An initialisation.
fn init(component: u8) -> Op {
    Op::Init { component }
}

/// Compares the operations of a system, one by one, each by its number, and how many there are.
fn expect_ops(rt: &impl Abort, alloc: Global, system: &System, wanted: &[Op]) -> Result<(), Fail> {
    let mut cursor = OpCursor::start(alloc, system)?;
    for k in 0..wanted.len() {
        assert_eq!(rt; cursor.next(system), Some(wanted[k]));
        if (k as u64) < system.op_count() {
            assert_eq!(rt; system.op(k as u64), wanted[k]);
        }
    }
    assert_eq!(rt; cursor.next(system), None);
    assert_eq!(rt; system.op_count(), wanted.len() as u64);
    Ok(())
}

/// Compares the legs of a route: sender, receiver and cells.
fn expect_route(rt: &impl Abort, route: &Route, wanted: &[(u8, u8, &[u32])]) {
    assert_eq!(rt; route.pairs().len(), wanted.len());
    for (from, to, cells) in wanted {
        assert_eq!(rt; route.cells(*from, *to), *cells);
    }
}

/// A file with so many steps.
fn with_steps(alloc: Global, steps: u64) -> Result<Vec<u8>, Fail> {
    let mut file = STEPS.to_vec(alloc)?;
    write_number(&mut file, u128::from(steps))?;
    file.extend_from_slice(b"\nA\n@\n::\n")?;
    Ok(file)
}

/// The wide file, with the phases of its ring, and perhaps the narrow component.
fn with_halos(alloc: Global, narrow: bool) -> Result<Vec<u8>, Fail> {
    let mut file = Vec::new(alloc);
    if narrow {
        file.extend_from_slice(b"EARTH_component_list: A B\n")?;
        file.extend_from_slice(NARROW)?;
    } else {
        file.extend_from_slice(b"EARTH_component_list: A\n")?;
    }
    file.extend_from_slice(WIDE)?;
    for label in b"abcdefgh" {
        file.extend_from_slice(b"A_phase_")?;
        file.push(*label)?;
        file.extend_from_slice(b"::\nx = x[1,0] + x[2,0] + x[-1,0] + x[-2,0]\n::\n")?;
    }
    Ok(file)
}

/// A producer and a consumer.
fn pair_system(rt: &impl Abort, alloc: Global) -> Result<(), Fail> {
    let pair = accepted(rt, alloc, PAIR, 1, b"")?;
    assert_eq!(rt; pair.init(), &[0, 1][..]);
    assert_eq!(rt; pair.cal(), Cal::Gregorian);
    assert_eq!(rt; pair.start(), 0);
    assert_eq!(rt; pair.span(), 3);
    assert!(rt; pair.alarms().is_empty());
    assert_eq!(rt; pair.comps().len(), 2);
    let ops = [
        init(0),
        init(1),
        link(false),
        run(0, 0, 0),
        run(1, 0, 0),
        link(false),
        run(0, 0, 1),
        run(1, 0, 1),
        link(false),
        run(0, 0, 2),
        run(1, 0, 2),
    ];
    expect_ops(rt, alloc, &pair, &ops)
}

/// A mediator whose second phase runs behind the steps, and how many rows a trace has.
fn means_system(rt: &impl Abort, alloc: Global) -> Result<(), Fail> {
    let means = accepted(rt, alloc, MEANS, 1, b"")?;
    assert_eq!(rt; means.op_count(), 12);
    if means.op_count() > 11 {
        assert_eq!(rt; means.op(11), run(1, 1, 3));
    }
    let rows = trace_rows(alloc, &means)?;
    assert_eq!(rt; rows, 3);
    Ok(())
}

/// A system over several PETs, whose connector runs at the initialisation too.
fn spread_system(rt: &impl Abort, alloc: Global) -> Result<(), Fail> {
    let spread = accepted(rt, alloc, SPREAD, 3, b"")?;
    assert_eq!(rt; spread.pets(), 3);
    expect_link(
        rt,
        &spread,
        &[(0, 1, &[1, 2]), (1, 1, &[3]), (1, 2, &[4]), (2, 2, &[5])],
    );
    let ops = [
        init(0),
        link(true),
        init(1),
        link(false),
        run(0, 0, 0),
        run(1, 0, 0),
    ];
    expect_ops(rt, alloc, &spread, &ops)
}

/// A connector by weights.
fn weighed_system(rt: &impl Abort, alloc: Global) -> Result<(), Fail> {
    let weighed = accepted(rt, alloc, WEIGHED, 2, WEIGHTS)?;
    expect_link(rt, &weighed, &[(0, 1, &[1]), (1, 1, &[3])]);
    Ok(())
}

/// A ring of three cells.
fn ring_system(rt: &impl Abort, alloc: Global) -> Result<(), Fail> {
    let ring = accepted(rt, alloc, RING, 3, b"")?;
    expect_halos(rt, &ring);
    Ok(())
}

/// Compares the route of the only connector of a system, which carries one pair.
fn expect_link(rt: &impl Abort, system: &System, wanted: &[(u8, u8, &[u32])]) {
    match system.links() {
        [link] => {
            assert_eq!(rt; link.pairs.items().len(), 1);
            expect_route(rt, &link.route, wanted);
        }
        _ => {
            assert!(rt; false);
        }
    }
}

/// Whether a component has a phase.
fn has_phase(system: &System, component: u8, phase: u8) -> bool
    ensures start { IsTrue result → IsPhaseOf system.now component None }
    ensures there { IsTrue result → IsPhaseOf system.now component (Some phase) }
{
    let comps = system.comps();
    let Some(comp) = comps.get(usize::from(component)) else {
        return false;
    };
    usize::from(phase) < comp.phases.items().len()
}

/// Compares the halos of the ring: none at its initialisation, and one cell for each PET at its phase.
fn expect_halos(rt: &impl Abort, ring: &System) {
    ring.facts();
    if !has_phase(ring, 0, 0) {
        assert!(rt; false);
        return;
    }
    expect_route(rt, ring.halo(0, None), &[]);
    expect_route(
        rt,
        ring.halo(0, Some(0)),
        &[(0, 2, &[1]), (1, 0, &[2]), (2, 1, &[3])],
    );
}

/// A system with as many operations as there may be.
fn most_ops(rt: &impl Abort, alloc: Global) -> Result<(), Fail> {
    let file = with_steps(alloc, 16_777_215)?;
    let most = accepted(rt, alloc, &file, 1, b"")?;
    assert_eq!(rt; most.op_count(), 16_777_216);
    Ok(())
}

/// One with one more.
fn too_many_ops(rt: &impl Abort, alloc: Global) -> Result<(), Fail> {
    let file = with_steps(alloc, 16_777_216)?;
    let fault = refused(rt, alloc, &file, 1)?;
    assert_eq!(rt; fault, SystemFault::TooManyOps { count: 16_777_217 });
    Ok(())
}

/// A system that moves as many numbers as there may be.
fn most_numbers(rt: &impl Abort, alloc: Global) -> Result<(), Fail> {
    let file = with_halos(alloc, false)?;
    let wide = accepted(rt, alloc, &file, 64, b"")?;
    assert_eq!(rt; wide.op_count(), 2);
    Ok(())
}

/// One that moves one more.
fn too_many_numbers(rt: &impl Abort, alloc: Global) -> Result<(), Fail> {
    let file = with_halos(alloc, true)?;
    let fault = refused(rt, alloc, &file, 64)?;
    assert_eq!(rt; fault, SystemFault::TooManyRoutes { count: 33_554_433 });
    Ok(())
}

#[test]
fn small_systems(rt: HostRuntime) -> Result<(), Fail> {
    let alloc = rt.alloc();
    pair_system(&rt, alloc)?;
    means_system(&rt, alloc)?;
    spread_system(&rt, alloc)?;
    weighed_system(&rt, alloc)?;
    ring_system(&rt, alloc)
}

#[test]
fn numbers_of_operations(rt: HostRuntime) -> Result<(), Fail> {
    let alloc = rt.alloc();
    most_ops(&rt, alloc)?;
    too_many_ops(&rt, alloc)
}

#[test]
fn numbers_of_routes(rt: HostRuntime) -> Result<(), Fail> {
    let alloc = rt.alloc();
    most_numbers(&rt, alloc)?;
    too_many_numbers(&rt, alloc)
}
