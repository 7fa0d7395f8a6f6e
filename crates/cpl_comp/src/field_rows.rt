//! The fields of a component, read row by row.

ghost use Rattle.std.specs.Prelude.{◌≡◌, ◌++◌, ◌∷◌, ◌≤◌, [], false, length, option_map, IfOk, OnOk};
ghost use Rattle.cpl_base.specs.Gives.{Gives};
ghost use Rattle.cpl_comp.specs.FieldRows.{few_fields, field_of, field_row, fields_in, fields_with, has_field, standard_check, units_check};
ghost use Rattle.cpl_comp.specs.Views.{words_view};
ghost use Rattle.cpl_comp.specs.declared.fault.CompFault.{CompFault};

use crate::component::Role;
use crate::fault::CompFault;
use crate::field_table::FieldTable;
use crate::field_words::{Demand, FieldWords, field_words};
use crate::labels::own_rows;
use cpl_base::{Many, Memory, Text};
use cpl_config::{Items, Row};
use cpl_dict::Dict;
use std::alloc::Global;

/// A component has at most so many fields.
const MOST_FIELDS: usize = 64;

/// A field as its row writes it.
#[derive(Drop)]
pub(crate) struct FieldRow {
    /// Its name.
    pub name: Text,
    /// What it is to the component.
    pub role: Role,
    /// Its standard name; empty for a variable.
    pub standard: Text,
    /// Its units; empty for a variable.
    pub units: Text,
    /// What is asked of it, where it is an import.
    pub demand: Demand,
    /// The number of its line.
    pub line: u32,
    /// The words of its start rule; none for an import.
    pub rule: Many<Text>,
}

/// The fields of a component: variables, imports and exports, at most 64.
#[tactic(auto, unfolding(crate::specs::FieldRows::fields_in))]
pub(crate) fn fields_in(
    alloc: Global,
    dict: &Dict,
    items: &Items,
    component: &[u8],
) -> Result<Many<FieldRow>, CompFault>
    ensures { Gives CompFault.Memory (λ fields. fields) result (fields_in dict.now items.now component.now) }
{
    let mut fields = FieldTable::new(alloc);
    let vars = own_rows(alloc, items, component, b"_vars")?;
    add_fields(alloc, dict, Role::Var, &mut fields, vars)?;
    let imports = own_rows(alloc, items, component, b"_import")?;
    add_fields(alloc, dict, Role::Import, &mut fields, imports)?;
    let exports = own_rows(alloc, items, component, b"_export")?;
    add_fields(alloc, dict, Role::Export, &mut fields, exports)?;
    let fields = fields.into_rows();
    few_fields(fields)
}

/// Fields, if they aren't too many.
fn few_fields(fields: Many<FieldRow>) -> Result<Many<FieldRow>, CompFault>
    ensures { result ≡ few_fields fields }
{
    let count = fields.items().len();
    if count <= MOST_FIELDS {
        Ok(fields)
    } else {
        Err(CompFault::TooManyFields {
            count: count as u64,
        })
    }
}

/// Puts the fields of rows behind others.
fn add_fields(
    alloc: Global,
    dict: &Dict,
    role: Role,
    fields: &mut FieldTable,
    rows: &[Row],
) -> Result<(), CompFault>
    ensures { Gives CompFault.Memory (λ _. fields.new) result (fields_with dict.now role fields.old rows.now) }
{
    for row in rows {
        let field = read_field(alloc, dict, role, fields, row)?;
        fields.push(field)?;
    }
    Ok(())
}

/// The field of a row, behind these fields.
fn read_field(
    alloc: Global,
    dict: &Dict,
    role: Role,
    before: &FieldTable,
    row: &Row,
) -> Result<FieldRow, CompFault>
    ensures gives { Gives CompFault.Memory (λ field. field) result (field_of dict.now role before.now row.now) }
    ensures fresh { IfOk result (λ row. has_field row.name before.now ≡ false) }
{
    let line = row.line;
    let Some(words) = field_words(role, row.words.items()) else {
        return Err(CompFault::BadValue { line });
    };
    if before.has_field(words.name) {
        return Err(CompFault::FieldTwice { line });
    }
    check_standard(dict, role, line, words)?;
    Ok(field_row(alloc, role, line, words)?)
}

/// Whether the dictionary has the standard name of an import or an export, with these units.
fn check_standard(
    dict: &Dict,
    role: Role,
    line: u32,
    words: FieldWords<'_>,
) -> Result<(), CompFault>
    ensures { result ≡ standard_check dict.now role line (words_view words.entry) }
{
    match role {
        Role::Var => Ok(()),
        Role::Import | Role::Export => check_units(line, words.units, dict.units(words.standard)),
    }
}

/// Whether units are those of the standard name, which the dictionary has.
fn check_units(line: u32, units: &[u8], known: Option<&Text>) -> Result<(), CompFault>
    ensures { result ≡ units_check line units.now (option_map (λ known. known.now) known.entry) }
{
    let Some(known) = known else {
        return Err(CompFault::StandardUnknown { line });
    };
    if known.bytes() == units {
        Ok(())
    } else {
        Err(CompFault::UnitsDiffer { line })
    }
}

/// The field of a row, with the words of its start rule.
fn field_row(
    alloc: Global,
    role: Role,
    line: u32,
    words: FieldWords<'_>,
) -> Result<FieldRow, Memory>
    ensures { IfOk result (λ row. row ≡ field_row role line (words_view words.entry)) }
{
    Ok(FieldRow {
        name: Text::of(alloc, words.name)?,
        role,
        standard: Text::of(alloc, words.standard)?,
        units: Text::of(alloc, words.units)?,
        demand: words.demand,
        line,
        rule: copied_words(alloc, words.rule)?,
    })
}

/// Words of their own with the same bytes.
pub(crate) fn copied_words(alloc: Global, words: &[Text]) -> Result<Many<Text>, Memory>
    ensures { IfOk result (λ copies. copies ≡ words.now) }
{
    let mut copies = Vec::with_capacity(alloc, words.len())?;
    for word in words {
        copies.push(word.copy(alloc)?)?;
    }
    Ok(Many::of(copies))
}
