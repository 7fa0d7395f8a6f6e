//! Reading the phases of a component, each with the table of its rows.

ghost use Rattle.std.specs.Prelude.{◌≡◌, ◌++◌, ◌≤◌, [], map, IfOk, OnOk};
ghost use Rattle.cpl_base.specs.Gives.{Gives};
ghost use Rattle.cpl_comp.specs.Halos.{halo_of};
ghost use Rattle.cpl_comp.specs.Realised.{phase_label, phase_named, phase_of, phases_with};
ghost use Rattle.cpl_comp.specs.Scopes.{IsPhaseScope};
ghost use Rattle.cpl_comp.specs.Views.{phase_scope_view, rules_in};

use crate::component::{Halo, Phase, Rule, SetRow};
use crate::fault::CompFault;
use crate::halos::halo_of;
use crate::labels::own_label;
use crate::phase_rows::read_rows;
use crate::row_table::RowTable;
use crate::scope::PhaseScope;
use cpl_base::{Many, Memory, Text};
use cpl_config::Items;
use std::alloc::Global;

/// The phases of these names.
pub(crate) fn phases_of(
    alloc: Global,
    scope: PhaseScope<'_>,
    items: &Items,
    component: &[u8],
    labels: Many<Text>,
) -> Result<Many<Phase>, CompFault>
    requires { IsPhaseScope (phase_scope_view scope) }
    ensures { Gives CompFault.Memory (λ phases. phases) result (phases_with (phase_scope_view scope.entry) items.now component.now [] labels) }
{
    let mut phases = Vec::with_capacity(alloc, labels.items().len())?;
    for label in labels.into_items() {
        let phase = read_phase(alloc, scope, items, component, label)?;
        phases.push(phase)?;
    }
    Ok(Many::of(phases))
}

/// The phase of a name.
fn read_phase(
    alloc: Global,
    scope: PhaseScope<'_>,
    items: &Items,
    component: &[u8],
    label: Text,
) -> Result<Phase, CompFault>
    requires { IsPhaseScope (phase_scope_view scope) }
    ensures { Gives CompFault.Memory (λ phase. phase) result (phase_named (phase_scope_view scope.entry) items.now component.now label) }
{
    let table = phase_label(alloc, component, label.bytes())?;
    let Some(rows) = items.table(table.as_slice()) else {
        return Err(CompFault::MissingLabel {
            label: Text::from_vec(table),
        });
    };
    let rows = read_rows(alloc, scope, rows)?;
    Ok(phase_of(alloc, scope.roles.len(), label, rows)?)
}

/// The label of a phase's table.
fn phase_label(alloc: Global, component: &[u8], label: &[u8]) -> Result<Vec<u8>, Memory>
    ensures { IfOk result (λ whole. whole.items ≡ phase_label component.now label.now) }
{
    let mut whole = own_label(alloc, component, b"_phase_")?;
    whole.extend_from_slice(label)?;
    Ok(whole)
}

/// The phase of these rows, of a component with so many fields.
fn phase_of(alloc: Global, count: usize, label: Text, rows: RowTable) -> Result<Phase, Memory>
    requires { count ≤ 64 }
    ensures { IfOk result (λ phase. phase ≡ phase_of count label rows) }
{
    let halo = phase_halo(alloc, count, rows.sets.as_slice(), rows.adds.as_slice())?;
    let RowTable {
        sets,
        merges,
        adds,
        averages,
        ranges,
    } = rows;
    Ok(Phase {
        label,
        sets: Many::of(sets),
        merges: Many::of(merges),
        adds: Many::of(adds),
        averages: Many::of(averages),
        ranges: Many::of(ranges),
        halo,
    })
}

/// What the rules of a phase read beside the cell.
fn phase_halo(alloc: Global, count: usize, sets: &[SetRow], adds: &[SetRow]) -> Result<Halo, Memory>
    requires { count ≤ 64 }
    ensures { IfOk result (λ halo. halo ≡ halo_of count (map (λ row. row.rule) sets.now ++ map (λ row. row.rule) adds.now)) }
{
    let mut rules = Vec::with_capacity(alloc, sets.len() + adds.len())?;
    push_rules(&mut rules, sets)?;
    push_rules(&mut rules, adds)?;
    halo_of(alloc, count, rules.as_slice())
}

/// Puts the rules of rows behind others.
fn push_rules<'a>(rules: &mut Vec<&'a Rule>, rows: &'a [SetRow]) -> Result<(), Memory>
    ensures { OnOk result (rules_in rules.new.items ≡ rules_in rules.old.items ++ map (λ row. row.rule) rows.now) }
{
    for row in rows {
        rules.push(&row.rule)?;
    }
    Ok(())
}
