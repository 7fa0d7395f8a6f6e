//! Reading a component to its last rule.

ghost use Rattle.std.specs.Prelude.{◌≡◌, ◌<◌, ◌≤◌, ◌^◌, [], codes, length, map, IfOk};
ghost use Rattle.std.specs.List.{All};
ghost use Rattle.cpl_base.specs.Gives.{Gives};
ghost use Rattle.cpl_comp.specs.Components.{HasShortRule, IsAskedOver, limits_of};
ghost use Rattle.cpl_comp.specs.Grids.{substep_in};
ghost use Rattle.cpl_comp.specs.Labels.{own_values};
ghost use Rattle.cpl_comp.specs.Realised.{realised_component, start_scope, started_with};

use crate::advertised::Advertised;
use crate::component::{Comp, Field, Kind, Role};
use crate::fault::CompFault;
use crate::field_rows::FieldRow;
use crate::grids::{layout_in, substep_in};
use crate::labels::own_values;
use crate::phases::phases_of;
use crate::realised::Realised;
use crate::scope::{PhaseScope, Scope};
use crate::starts::{fields_with_starts, start_halo, start_names};
use cpl_base::{Many, Memory, Text};
use cpl_config::Items;
use cpl_formula::EntrySign;
use std::alloc::Global;

/// Reads the component of an advertisement to its last rule, over these items, alarms and native entries and
/// so many PETs in all. Time is linear in its rows. There are 1 to 64 PETs, more than the last one of the
/// component, at most 64 alarms and fewer than 2^16 entries. The advertisement is consumed, also where the
/// component is refused.
///
/// `NAME_grid` is `nx ny` or `nx ny periodic`, of at most 2^20 cells. `NAME_decomp` has the numbers of blocks
/// of columns and of rows, up to 2^20 each; without it there is one block of columns for each PET.
/// `NAME_substep` is a number of seconds from 1 to 10^9, which a mediator doesn't use. The start rule of a
/// variable or an export is over the imports. Each phase `L` has a table `NAME_phase_L`, whose rows are
/// `F = RULE`; `check F low high`, at most 8, with `low` at most `high`; and of a mediator `add F = RULE`,
/// `average F`, at most 64, and `merge F = a f b g ..`, with one to 32 pairs. A row whose second word is `=` is
/// an assignment whatever its first is. What is assigned, averaged or merged, and what is added, are variables
/// and exports, each at most once.
///
/// A rule whose first word is `call` calls a native entry: `call LABEL` and at least one argument. Any other
/// rule is a formula.
///
/// Errors: the first in this order. `NoGrid`; `BadValue` or `TooManyCells` of the grid; `BadValue` or
/// `BlocksMismatch` of the blocks; `BadValue` of the substep; then the start rules in the order of the fields;
/// then the phases in their order, each with `MissingLabel` of its table and the faults of its rows one after
/// another: `BadValue` where a row has no form or breaks a rule on rows, `NameUnknown` where a name in front of
/// its rule is no field's, and those of its rule. The faults of a rule are those of a formula, or of the
/// arguments of a call in their order (`Syntax`, `BadNumber`, `NameUnknown`, `FarNeighbour`, `DeepFormula`),
/// then `EntryUnknown` and `InputsDiffer`. `Memory` where memory runs out.
///
/// Source: NUOPC Layer Reference, realised fields and run phases; labels, rows and refusals are this project's
/// own.
#[tactic(auto, unfolding(crate::specs::Realised::realised_component))]
pub fn realise(
    alloc: Global,
    advertised: Advertised,
    items: &Items,
    pets: u8,
    alarms: &[Text],
    signs: &[EntrySign],
) -> Result<Realised, CompFault>
    requires { IsAskedOver advertised pets (length alarms.now) (length signs.now) }
    ensures answer { Gives CompFault.Memory (λ realised. realised.comp) result (realised_component items.now advertised pets alarms.now signs.now) }
    ensures limits { IfOk result (λ realised. realised.limits ≡ limits_of pets alarms.now signs.now) }
{
    let inputs = inputs_of(alloc, signs)?;
    let comp = read_component(alloc, advertised, items, pets, alarms, signs)?;
    Ok(Realised::new(comp, pets, alarms.len(), inputs))
}

/// How many inputs each native entry has.
fn inputs_of(alloc: Global, signs: &[EntrySign]) -> Result<Many<u8>, Memory>
    ensures { IfOk result (λ inputs. inputs ≡ map (λ sign. sign.inputs) signs.now) }
{
    let mut inputs = Vec::with_capacity(alloc, signs.len())?;
    for sign in signs {
        inputs.push(sign.inputs)?;
    }
    Ok(Many::of(inputs))
}

/// The component of an advertisement.
#[tactic(auto, unfolding(crate::specs::Realised::realised_component))]
fn read_component(
    alloc: Global,
    advertised: Advertised,
    items: &Items,
    pets: u8,
    alarms: &[Text],
    signs: &[EntrySign],
) -> Result<Comp, CompFault>
    requires { IsAskedOver advertised pets (length alarms.now) (length signs.now) }
    ensures { Gives CompFault.Memory (λ comp. comp) result (realised_component items.now advertised pets alarms.now signs.now) }
{
    let first_pet = advertised.first_pet();
    let count = advertised.pet_count(pets);
    let kind = advertised.kind();
    let decomp = layout_in(alloc, items, advertised.name(), first_pet, count)?;
    let substep = substep(alloc, items, advertised.name(), kind)?;
    let names = names_of(alloc, advertised.fields())?;
    let roles = roles_of(alloc, advertised.fields())?;
    let (name, rows, labels) = advertised.into_parts();
    let fields = start_fields(alloc, rows, alarms, signs)?;
    let rules = Scope {
        fields: names.as_slice(),
        alarms,
        signs,
    };
    let scope = PhaseScope {
        kind,
        roles: roles.as_slice(),
        rules,
    };
    let phases = phases_of(alloc, scope, items, name.bytes(), labels)?;
    let start_halo = start_halo(alloc, fields.items())?;
    Ok(Comp {
        name,
        kind,
        first_pet,
        pets: count,
        decomp,
        substep,
        fields,
        phases,
        start_halo,
    })
}

/// The substep of a component.
fn substep(
    alloc: Global,
    items: &Items,
    component: &[u8],
    kind: Kind,
) -> Result<Option<i64>, CompFault>
    ensures { Gives CompFault.Memory (λ substep. substep) result (substep_in kind (own_values items.now component.now (codes "_substep"))) }
{
    let values = own_values(alloc, items, component, b"_substep")?;
    substep_in(kind, values)
}

/// The fields of rows with their start rules, over their imports.
fn start_fields(
    alloc: Global,
    rows: Many<FieldRow>,
    alarms: &[Text],
    signs: &[EntrySign],
) -> Result<Many<Field>, CompFault>
    requires few { length rows ≤ 64 }
    requires alarms { length alarms.now ≤ 64 }
    requires signs { length signs.now < 2 ^ 16 }
    requires short { All HasShortRule rows }
    ensures gives { Gives CompFault.Memory (λ fields. fields) result (started_with (start_scope rows alarms.now signs.now) [] rows) }
    ensures count { IfOk result (λ fields. length fields ≡ length rows) }
{
    let names = start_names(alloc, rows.items())?;
    let scope = Scope {
        fields: names.as_slice(),
        alarms,
        signs,
    };
    let fields = fields_with_starts(alloc, scope, rows)?;
    Ok(fields)
}

/// What each of the fields is to the component.
fn roles_of(alloc: Global, rows: &[FieldRow]) -> Result<Vec<Role>, Memory>
    ensures { IfOk result (λ roles. roles.items ≡ map (λ row. row.role) rows.now) }
{
    let mut roles = Vec::with_capacity(alloc, rows.len())?;
    for row in rows {
        roles.push(row.role)?;
    }
    Ok(roles)
}

/// The names of the fields.
fn names_of(alloc: Global, rows: &[FieldRow]) -> Result<Vec<Text>, Memory>
    ensures { IfOk result (λ names. names.items ≡ map (λ row. row.name) rows.now) }
{
    let mut names = Vec::with_capacity(alloc, rows.len())?;
    for row in rows {
        names.push(row.name.copy(alloc)?)?;
    }
    Ok(names)
}
