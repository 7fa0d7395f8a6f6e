//! The rows that an operation adds to a trace.

ghost use Rattle.std.specs.Prelude.{◌≡◌, ◌<◌, ◌++◌, IfOk, length, map};
ghost use Rattle.cpl_comp.specs.Turns.{places_of};
ghost use Rattle.cpl_comp.specs.Worlds.{CompWorld};
ghost use Rattle.cpl_comp.specs.declared.component.Role.TheVariants.{Export};
ghost use Rattle.cpl_grid.specs.Parts.{whole_part};
ghost use Rattle.cpl_phase.specs.Locals.{IsLocal, StandsForComp};
ghost use Rattle.cpl_script.specs.SerialRun.{trace_row};

use crate::ends::value_sum;
use cpl_base::Memory;
use cpl_comp::Comp;
use cpl_phase::LocalComp;
use cpl_trace::TraceRow;

/// Puts the rows of an operation that ended a step behind the rows of a trace: one for each export of its component.
pub(crate) fn push_rows(
    rows: &mut Vec<TraceRow>,
    comp: &Comp,
    local: &LocalComp,
    op: u64,
    component: u8,
    phase: u8,
) -> Result<(), Memory>
    requires local { IsLocal comp.now local.now }
    requires whole { local.now.frame.part ≡ whole_part local.now.frame.grid }
    ensures { (world : CompWorld) → StandsForComp comp.now world local.now
        → IfOk result (λ _. rows.new.items
        ≡ rows.old.items ++ map (trace_row op component phase comp.now.decomp world.fields) (places_of Export comp.now.fields)) }
{
    let exports = local.exports.items();
    for j in 0..exports.len() {
        let row = trace_row(comp, local, op, component, phase, exports[j]);
        rows.push(row)?;
    }
    Ok(())
}

/// The row of an export: its stamp, and the sum of its values.
fn trace_row(
    comp: &Comp,
    local: &LocalComp,
    op: u64,
    component: u8,
    phase: u8,
    field: u16,
) -> TraceRow
    requires local { IsLocal comp.now local.now }
    requires whole { local.now.frame.part ≡ whole_part local.now.frame.grid }
    requires field { field < length comp.now.fields }
    ensures { (world : CompWorld) → StandsForComp comp.now world local.now
        → result ≡ trace_row op component phase comp.now.decomp world.fields field }
{
    let k = field as usize;
    let stamps = local.marks.stamps.items();
    let fields = local.fields.items();
    TraceRow {
        op,
        component,
        phase,
        field,
        stamp: stamps[k].unwrap_or(0),
        sum: value_sum(&local.frame, &fields[k]),
    }
}
