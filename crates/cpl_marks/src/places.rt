//! Places of fields.

ghost use Rattle.std.specs.Prelude.{◌≡◌, ◌<◌, ◌≤◌, All, IfOk, filter, length};
ghost use Rattle.cpl_comp.specs.Components.{is_role, written_fields};
ghost use Rattle.cpl_comp.specs.Turns.{has_role, is_among, places_of};
ghost use Rattle.cpl_comp.specs.declared.component.Role.TheVariants.{Export as ExportRole};

use crate::looking::is_written;
use cpl_base::{Many, Memory};
use cpl_comp::{Field, Phase, Role};
use std::alloc::Global;

/// The places of the exports among a component's fields, ascending. There are at most 64 fields.
///
/// Errors: `Memory` where memory runs out.
///
/// Source: this project's own.
pub fn export_places(alloc: Global, fields: &[Field]) -> Result<Many<u16>, Memory>
    requires { length fields.now ≤ 64 }
    ensures value { IfOk result (λ places. places ≡ places_of ExportRole fields.now) }
    ensures within { IfOk result (λ places. All (λ k. k < length fields.now) places) }
{
    places_of(alloc, Role::Export, fields)
}

/// The places of the fields of a role, ascending.
pub(crate) fn places_of(alloc: Global, role: Role, fields: &[Field]) -> Result<Many<u16>, Memory>
    requires { length fields.now ≤ 64 }
    ensures value { IfOk result (λ places. places ≡ places_of role fields.now) }
    ensures within { IfOk result (λ places. All (λ k. k < length fields.now) places) }
    ensures few { IfOk result (λ places. length places ≤ length fields.now) }
{
    let mut places = Vec::new(alloc);
    for place in 0..fields.len() {
        if has_role(role, fields, place) {
            places.push(place as u16)?;
        }
    }
    Ok(Many::of(places))
}

/// Whether the field of a place has this role.
fn has_role(role: Role, fields: &[Field], place: usize) -> bool
    requires { place < length fields.now }
    ensures { result ≡ has_role role fields.now place }
{
    is_role(role, fields[place].role)
}

/// Whether a role is this one.
fn is_role(role: Role, other: Role) -> bool
    ensures { result ≡ is_role role other }
{
    match role {
        Role::Var => matches!(other, Role::Var),
        Role::Import => matches!(other, Role::Import),
        Role::Export => matches!(other, Role::Export),
    }
}

/// Those of some places to whose fields a phase gives a new value, in their order.
pub(crate) fn written_among(
    alloc: Global,
    phase: &Phase,
    places: &[u16],
) -> Result<Many<u16>, Memory>
    ensures { IfOk result (λ written. written ≡ filter (is_among (written_fields phase.now)) places.now) }
{
    let mut written = Vec::new(alloc);
    for number in 0..places.len() {
        let place = places[number];
        if is_written(phase, place) {
            written.push(place)?;
        }
    }
    Ok(Many::of(written))
}
