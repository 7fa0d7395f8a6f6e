//! The start rules of a component's fields.

ghost use Rattle.std.specs.Prelude.{◌≡◌, ◌++◌, ◌≤◌, [], length, map, IfOk, OnOk};
ghost use Rattle.std.specs.List.{All};
ghost use Rattle.std.specs.Option.{option_to_list};
ghost use Rattle.cpl_base.specs.Gives.{Gives};
ghost use Rattle.cpl_comp.specs.Components.{HasShortRule};
ghost use Rattle.cpl_comp.specs.Halos.{halo_of};
ghost use Rattle.cpl_comp.specs.Realised.{start_name, start_of, start_rules, started_field, started_with};
ghost use Rattle.cpl_comp.specs.Scopes.{AreShort, IsScope};
ghost use Rattle.cpl_comp.specs.Views.{rules_in, scope_view};

use crate::component::{Field, Halo, Role, Rule};
use crate::fault::CompFault;
use crate::field_rows::FieldRow;
use crate::halos::halo_of;
use crate::rules::rule_of;
use crate::scope::Scope;
use cpl_base::{Many, Memory, Text};
use std::alloc::Global;

/// The fields of rows with their start rules.
pub(crate) fn fields_with_starts(
    alloc: Global,
    scope: Scope<'_>,
    rows: Many<FieldRow>,
) -> Result<Many<Field>, CompFault>
    requires scope { IsScope (scope_view scope) }
    requires short { All HasShortRule rows }
    ensures { Gives CompFault.Memory (λ fields. fields) result (started_with (scope_view scope.entry) [] rows) }
{
    let mut fields = Vec::with_capacity(alloc, rows.items().len())?;
    for row in rows.into_items() {
        let field = started_field(alloc, scope, row)?;
        fields.push(field)?;
    }
    Ok(Many::of(fields))
}

/// A field with its start rule, if it has one.
fn started_field(alloc: Global, scope: Scope<'_>, row: FieldRow) -> Result<Field, CompFault>
    requires scope { IsScope (scope_view scope) }
    requires short { HasShortRule row }
    ensures { Gives CompFault.Memory (λ field. field) result (started_field (scope_view scope.entry) row) }
{
    let start = start_of(alloc, scope, row.role, row.line, row.rule.items())?;
    let FieldRow {
        name,
        role,
        standard,
        units,
        demand,
        line,
        rule: _,
    } = row;
    Ok(Field {
        name,
        role,
        standard,
        units,
        wanted: demand.wanted,
        optional: demand.optional,
        at_init: demand.at_init,
        start,
        line,
    })
}

/// The start rule of a field; an import has none.
fn start_of(
    alloc: Global,
    scope: Scope<'_>,
    role: Role,
    line: u32,
    words: &[Text],
) -> Result<Option<Rule>, CompFault>
    requires scope { IsScope (scope_view scope) }
    requires short { AreShort words.now }
    ensures { Gives CompFault.Memory (λ start. start) result (start_of (scope_view scope.entry) role line words.now) }
{
    match role {
        Role::Import => Ok(None),
        Role::Var | Role::Export => Ok(Some(rule_of(alloc, scope, line, words)?)),
    }
}

/// The names by which start rules may read fields: none, but those of imports.
pub(crate) fn start_names(alloc: Global, rows: &[FieldRow]) -> Result<Vec<Text>, Memory>
    ensures { IfOk result (λ names. names.items ≡ map (λ row. start_name row.role row.name) rows.now) }
{
    let mut names = Vec::with_capacity(alloc, rows.len())?;
    for row in rows {
        names.push(start_name(alloc, row.role, &row.name)?)?;
    }
    Ok(names)
}

/// The name by which a start rule may read a field: none, but that of an import.
fn start_name(alloc: Global, role: Role, name: &Text) -> Result<Text, Memory>
    ensures { IfOk result (λ text. text ≡ start_name role name.now) }
{
    match role {
        Role::Import => name.copy(alloc),
        Role::Var | Role::Export => Text::of(alloc, b""),
    }
}

/// What start rules read beside the cell.
pub(crate) fn start_halo(alloc: Global, fields: &[Field]) -> Result<Halo, Memory>
    requires { length fields.now ≤ 64 }
    ensures { IfOk result (λ halo. halo ≡ halo_of (length fields.now) (start_rules fields.now)) }
{
    let mut rules = Vec::new(alloc);
    for field in fields {
        push_start(&mut rules, field)?;
    }
    halo_of(alloc, fields.len(), rules.as_slice())
}

/// Puts the start rule of a field behind others, if it has one.
fn push_start<'a>(rules: &mut Vec<&'a Rule>, field: &'a Field) -> Result<(), Memory>
    ensures { OnOk result (rules_in rules.new.items ≡ rules_in rules.old.items ++ option_to_list field.now.start) }
{
    match &field.start {
        None => Ok(()),
        Some(rule) => {
            rules.push(rule)?;
            Ok(())
        }
    }
}
