//! What the runs of a phase look at and stamp.

ghost use Rattle.std.specs.Prelude.{◌≡◌, ◌<◌, ◌≤◌, All, IfOk, length};
ghost use Rattle.std.specs.List.{enumerate_from, filter_map};
ghost use Rattle.cpl_comp.specs.Turns.{stamped_exports};
ghost use Rattle.cpl_marks.specs.Plans.{IsPlanOf, IsPlanWithin, checked_import, checked_imports, import_check, is_looked_at};

use crate::looking::is_checked;
use crate::places::{export_places, places_of, written_among};
use cpl_base::{Many, Memory};
use cpl_comp::{Comp, Kind, Phase, Role, Wanted};
use std::alloc::Global;

/// An import whose stamp is looked at.
///
/// Source: this project's own.
#[derive(Clone, Copy, Debug, PartialEq, Eq)]
pub struct CheckedImport {
    /// Its number among the component's imports.
    pub number: u16,
    /// Its place among the component's fields.
    pub field: u16,
    /// Which stamp it must have.
    pub wanted: Wanted,
}

/// What the runs of a phase look at and stamp.
///
/// Source: this project's own.
#[derive(Debug, Drop)]
pub struct StampPlan {
    /// The imports whose stamps the first operation of a step looks at, in the order of their places.
    pub checked: Many<CheckedImport>,
    /// The places of the exports that the last operation of a step stamps, ascending.
    pub stamped: Many<u16>,
}

/// What the runs of a phase of a component look at and stamp. The component has at most 64 fields, and `connected` says of
/// each whether it is an import with an export. Takes time in the fields times what the phase's rules read.
///
/// Errors: `Memory` where memory runs out.
///
/// Source: this project's own.
pub fn stamp_plan(
    alloc: Global,
    comp: &Comp,
    phase: &Phase,
    connected: &[bool],
) -> Result<StampPlan, Memory>
    requires fields { length comp.now.fields ≤ 64 }
    requires connected { length connected.now ≡ length comp.now.fields }
    ensures plan { IfOk result (IsPlanOf comp.now phase.now connected.now) }
    ensures within { IfOk result (IsPlanWithin (length comp.now.fields)) }
{
    let checked = checked_imports(alloc, comp, phase, connected)?;
    let stamped = stamped_exports(alloc, comp, phase)?;
    Ok(StampPlan { checked, stamped })
}

/// The imports whose stamps are looked at.
fn checked_imports(
    alloc: Global,
    comp: &Comp,
    phase: &Phase,
    connected: &[bool],
) -> Result<Many<CheckedImport>, Memory>
    requires fields { length comp.now.fields ≤ 64 }
    requires connected { length connected.now ≡ length comp.now.fields }
    ensures value { IfOk result (λ checked. checked ≡ checked_imports comp.now phase.now connected.now) }
    ensures within { IfOk result (λ checked. All (λ import. import.field < length comp.now.fields) checked) }
{
    let imports = places_of(alloc, Role::Import, comp.fields.items())?;
    let checked = checked_among(alloc, comp, phase, connected, imports.items())?;
    Ok(checked)
}

/// Those of these imports whose stamps are looked at.
fn checked_among(
    alloc: Global,
    comp: &Comp,
    phase: &Phase,
    connected: &[bool],
    imports: &[u16],
) -> Result<Many<CheckedImport>, Memory>
    requires connected { length connected.now ≡ length comp.now.fields }
    requires imports { All (λ k. k < length comp.now.fields) imports.now }
    requires few { length imports.now ≤ 64 }
    ensures value { IfOk result (λ checked. checked ≡ filter_map (checked_import comp.now phase.now connected.now) (enumerate_from 0 imports.now)) }
    ensures within { IfOk result (λ checked. All (λ import. import.field < length comp.now.fields) checked) }
{
    let mut checked = Vec::new(alloc);
    for number in 0..imports.len() {
        let field = imports[number];
        match checked_import(comp, phase, connected, number as u16, field) {
            Some(import) => checked.push(import)?,
            None => {}
        }
    }
    Ok(Many::of(checked))
}

/// The import of this number and place, if its stamp is looked at.
fn checked_import(
    comp: &Comp,
    phase: &Phase,
    connected: &[bool],
    number: u16,
    field: u16,
) -> Option<CheckedImport>
    requires connected { length connected.now ≡ length comp.now.fields }
    requires field { field < length comp.now.fields }
    ensures { result ≡ checked_import comp.now phase.now connected.now (number, field) }
{
    if is_looked_at(comp, phase, connected, field) {
        import_check(number, field, comp.fields.items()[field as usize].wanted)
    } else {
        None
    }
}

/// Whether the import of a place has an export and is looked at.
fn is_looked_at(comp: &Comp, phase: &Phase, connected: &[bool], field: u16) -> bool
    requires { field < length connected.now }
    ensures { result ≡ is_looked_at comp.now phase.now connected.now field }
{
    connected[field as usize] && is_checked(comp.kind, phase, field)
}

/// The import of this number and place, if it must have a stamp.
fn import_check(number: u16, field: u16, wanted: Wanted) -> Option<CheckedImport>
    ensures { result ≡ import_check (number, field) wanted }
{
    match wanted {
        Wanted::Unchecked => None,
        Wanted::Current | Wanted::Next => Some(CheckedImport {
            number,
            field,
            wanted,
        }),
    }
}

/// The places of the exports that the end of a step stamps.
fn stamped_exports(alloc: Global, comp: &Comp, phase: &Phase) -> Result<Many<u16>, Memory>
    requires { length comp.now.fields ≤ 64 }
    ensures value { IfOk result (λ stamped. stamped ≡ stamped_exports comp.now.kind comp.now phase.now) }
    ensures within { IfOk result (λ stamped. All (λ k. k < length comp.now.fields) stamped) }
{
    let exports = export_places(alloc, comp.fields.items())?;
    match comp.kind {
        Kind::Model => Ok(exports),
        Kind::Mediator => {
            let written = written_among(alloc, phase, exports.items())?;
            Ok(written)
        }
    }
}
