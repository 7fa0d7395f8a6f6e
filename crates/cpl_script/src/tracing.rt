//! How many rows a trace has, by arithmetic: no operation is walked.

ghost use Rattle.std.specs.Prelude.{◌≡◌, length, map, IfOk};
ghost use Rattle.cpl_comp.specs.Components.{is_role};
ghost use Rattle.cpl_comp.specs.Turns.{places_of};
ghost use Rattle.cpl_comp.specs.declared.component.Role.TheVariants.{Export as ExportRole};
ghost use Rattle.cpl_script.specs.Systems.{capped};
ghost use Rattle.cpl_script.specs.TraceLengths.{export_counts, trace_length};

use crate::system::System;
use cpl_base::Memory;
use cpl_comp::{Comp, Field, Role};
use cpl_sequence::run_total;
use std::alloc::Global;

/// How many rows the trace of a run of a system has that has no fault: one for each export of a component at the end of
/// each of its runs; capped at the greatest `u64`. Takes time in the elements of the run sequence and in the fields of
/// the components, and eight bytes a component for the while.
///
/// Errors: `Memory` alone.
///
/// Source: this project's own.
pub fn trace_rows(alloc: Global, system: &System) -> Result<u64, Memory>
    ensures { IfOk result (λ rows. rows ≡ capped (trace_length system.now)) }
{
    let counts = export_counts(alloc, system.comps())?;
    Ok(run_total(system.seq(), counts.as_slice()))
}

/// How many exports each component has.
fn export_counts(alloc: Global, comps: &[Comp]) -> Result<Vec<u64>, Memory>
    ensures { IfOk result (λ counts. counts.items ≡ export_counts comps.now) }
{
    let mut counts = Vec::with_capacity(alloc, comps.len())?;
    for comp in comps {
        counts.push(export_count(comp.fields.items()))?;
    }
    Ok(counts)
}

/// How many of fields are exports.
fn export_count(fields: &[Field]) -> u64
    ensures { result ≡ length (places_of ExportRole fields.now) }
{
    let mut count = 0;
    for place in 0..fields.len() {
        if is_export(&fields[place]) {
            count += 1;
        }
    }
    count
}

/// Whether a field is an export.
fn is_export(field: &Field) -> bool
    ensures { result ≡ is_role ExportRole field.now.role }
{
    match field.role {
        Role::Export => true,
        Role::Var | Role::Import => false,
    }
}
