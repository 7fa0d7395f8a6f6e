//! A system made of a file, step by step.

ghost use Rattle.std.specs.Prelude.{◌≡◌, ◌<◌, ◌≤◌, ◌*◌, ◌-◌, ◌^◌, ℤ, pos, ◌<ℤ◌, ◌+ℤ◌, [], length, map, min, sum_by, IfOk};
ghost use Rattle.std.specs.List.{All, zip};
ghost use Rattle.cpl_calendar.specs.Calendar.{end_of_time};
ghost use Rattle.cpl_calendar.specs.declared.calendar.Cal.TheVariants.{Gregorian};
ghost use Rattle.cpl_dict.specs.Dict.{Dictionary};
ghost use Rattle.cpl_grid.specs.Grid.{cells_in};
ghost use Rattle.cpl_init.specs.Waiting.{IsInitialOrder};
ghost use Rattle.cpl_match.specs.Pairs.{ArePairs};
ghost use Rattle.cpl_script.specs.Matched.{cell_counts, names_of, ports_of, way_of};
ghost use Rattle.cpl_script.specs.Operations.{needs_in};
ghost use Rattle.cpl_sequence.specs.Bounds.{IsOver};
ghost use Rattle.test_system.specs.Weighed.{AreRead, IsWeighed};

use crate::matched::{are_listed, are_within, cell_counts, names_of, needs_in, ports_of, ways_of};
use crate::reading::{comps_of, dict_of, items_of, rows_of};
use crate::weighing::weights_of;
use cpl_base::{Many, Memory};
use cpl_calendar::{Cal, end_of};
use cpl_comp::Comp;
use cpl_config::Row;
use cpl_dict::Dict;
use cpl_init::order;
use cpl_match::{Pair, connect};
use cpl_runseq::read_sequence;
use cpl_script::{System, SystemFault, SystemParts};
use cpl_sequence::Seq;
use cpl_smm::Weights;
use std::alloc::Global;
use std::test::Fail;

/// So many values have the components of a system at most.
const MOST_VALUES: u64 = 16_777_216;

/// The system of a file over so many PETs, with the weights of a second file, or why it is too large.
pub fn system_of(
    alloc: Global,
    file: &[u8],
    pets: u8,
    weights: &[u8],
) -> Result<Result<System, SystemFault>, Fail> {
    if pets < 1 || pets > 64 {
        return Err(Fail::from(Memory));
    }
    let items = items_of(alloc, file)?;
    let dict = dict_of(alloc, &items)?;
    let comps = comps_of(alloc, &items, &dict, pets)?;
    if comps.is_empty() || comps.len() > 32 || value_count(&comps) > MOST_VALUES {
        return Err(Fail::from(Memory));
    }
    let seq = sequence_of(alloc, &comps, rows_of(&items, b"runSeq"), pets)?;
    system_over(alloc, comps, &dict, seq, pets, weights)
}

/// How many values components have; capped.
fn value_count(comps: &[Comp]) -> u64
    ensures { result ≡ min (sum_by (λ comp. length comp.fields * cells_in comp.decomp.grid) comps.now) (2 ^ 64 - 1) }
{
    let mut total: u64 = 0;
    for comp in comps {
        let fields = comp.fields.items().len() as u64;
        total = total.saturating_add(fields.saturating_mul(u64::from(comp.decomp.grid().cells())));
    }
    total
}

/// The sequence of rows over components.
fn sequence_of(alloc: Global, comps: &[Comp], rows: &[Row], pets: u8) -> Result<Seq, Fail>
    requires { AreRead pets comps.now }
    ensures over { IfOk result (IsOver (names_of comps.now)) }
    ensures end { IfOk result (λ seq. (pos 0 +ℤ seq.span) <ℤ pos (end_of_time Gregorian)) }
    ensures begun { IfOk result (λ _. pos 0 <ℤ pos (end_of_time Gregorian)) }
{
    let _ = pets;
    let room = end_of(Cal::Gregorian);
    if room < 1 {
        return Err(Fail::from(Memory));
    }
    let names = names_of(alloc, comps)?;
    let seq = read_sequence(alloc, rows, names.as_slice(), None, None, room)?;
    if seq.span() >= room {
        return Err(Fail::from(Memory));
    }
    Ok(seq)
}

/// The system of components, a sequence over them, and the weights of a file.
fn system_over(
    alloc: Global,
    comps: Vec<Comp>,
    dict: &Dict,
    seq: Seq,
    pets: u8,
    file: &[u8],
) -> Result<Result<System, SystemFault>, Fail>
    requires read { AreRead pets comps.items }
    requires values { sum_by (λ comp. length comp.fields * cells_in comp.decomp.grid) comps.items ≤ 2 ^ 24 }
    requires over { IsOver (names_of comps.items) seq }
    requires end { (pos 0 +ℤ seq.span) <ℤ pos (end_of_time Gregorian) }
    requires begun { pos 0 <ℤ pos (end_of_time Gregorian) }
{
    let pairs = pairs_of(alloc, comps.as_slice(), dict, &seq)?;
    let init = order_of(alloc, comps.as_slice(), pairs.items())?;
    let weights = weights_of(alloc, comps.as_slice(), seq.links(), file)?;
    let parts = parts_of(alloc, comps, seq, pairs, init, weights, pets);
    Ok(System::new(alloc, parts))
}

/// The parts of a system that starts with its calendar, without alarms.
fn parts_of(
    alloc: Global,
    comps: Vec<Comp>,
    seq: Seq,
    pairs: Many<Pair>,
    init: Vec<u8>,
    weights: Vec<Option<Weights>>,
    pets: u8,
) -> SystemParts
    ensures { result ≡ record { comps = comps.items; seq = seq; pairs = pairs; init = init.items; weights = weights.items; cal = Gregorian; start = pos 0; alarms = []; pets = pets } }
{
    SystemParts {
        comps: Many::of(comps),
        seq,
        pairs,
        init: Many::of(init),
        weights: Many::of(weights),
        cal: Cal::Gregorian,
        start: 0,
        alarms: Many::of(Vec::new(alloc)),
        pets,
    }
}

/// The pairs of components along the connectors of a sequence.
fn pairs_of(alloc: Global, comps: &[Comp], dict: &Dict, seq: &Seq) -> Result<Many<Pair>, Fail>
    requires few { length comps.now ≤ 32 }
    requires fields { All (λ comp. length comp.fields ≤ 64) comps.now }
    ensures { IfOk result (ArePairs dict.now (cell_counts comps.now) (map way_of seq.now.links) (ports_of comps.now)) }
{
    let ports = ports_of(alloc, comps)?;
    let cells = cell_counts(alloc, comps)?;
    let ways = ways_of(alloc, seq.links())?;
    if !are_within(ports.as_slice(), cells.len()) {
        return Err(Fail::from(Memory));
    }
    let pairs = connect(
        alloc,
        ports.as_slice(),
        cells.as_slice(),
        dict,
        ways.as_slice(),
    )?;
    Ok(pairs)
}

/// The order in which components are initialised.
fn order_of(alloc: Global, comps: &[Comp], pairs: &[Pair]) -> Result<Vec<u8>, Fail>
    requires { length comps.now ≤ 32 }
    ensures { IfOk result (λ init. IsInitialOrder (length comps.now) (needs_in comps.now pairs.now) init.items) }
{
    let needs = needs_in(alloc, comps, pairs)?;
    let count = comps.len() as u8;
    if !are_listed(needs.as_slice(), count) {
        return Err(Fail::from(Memory));
    }
    let order = order(alloc, count, needs.as_slice())?;
    Ok(order.numbers().to_vec(alloc)?)
}
