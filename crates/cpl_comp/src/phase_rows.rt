//! Reading the rows of a phase, one after another.

ghost use Rattle.std.specs.Prelude.{◌≡◌, ◌<◌, [], Some, length, IfOk, IfSome};
ghost use Rattle.std.specs.List.{All};
ghost use Rattle.cpl_base.specs.Gives.{Gives};
ghost use Rattle.cpl_config.specs.Items.{IsShort};
ghost use Rattle.cpl_comp.specs.PhaseRows.{after_form, after_row, after_rows, field_place, is_added, is_mediator, is_own, is_written, may_stand, no_rows, row_field, term_of, terms_with};
ghost use Rattle.cpl_comp.specs.RowForms.{add, assign, average, check, merge};
ghost use Rattle.cpl_comp.specs.Scopes.{AreShort, HasShortWords, IsPhaseScope};
ghost use Rattle.cpl_comp.specs.Views.{form_view, phase_scope_view};

use crate::component::{Kind, MergeRow, RangeRow, Role, SetRow};
use crate::fault::CompFault;
use crate::row_forms::{RowForm, row_form};
use crate::row_table::RowTable;
use crate::rules::rule_of;
use crate::scope::PhaseScope;
use cpl_base::{Many, Memory, Text, place_of};
use cpl_config::Row;
use std::alloc::Global;

/// A phase has at most so many ranges.
const MOST_RANGES: usize = 8;

/// A phase has at most so many averages.
const MOST_AVERAGES: usize = 64;

/// What the rows of a phase say, one after another.
pub(crate) fn read_rows(
    alloc: Global,
    scope: PhaseScope<'_>,
    rows: &[Row],
) -> Result<RowTable, CompFault>
    requires scope { IsPhaseScope (phase_scope_view scope) }
    requires short { All IsShort rows.now }
    ensures { Gives CompFault.Memory (λ table. table) result (after_rows (phase_scope_view scope.entry) no_rows rows.now) }
{
    let mut table = RowTable::new(alloc);
    for row in rows {
        read_row(alloc, scope, &mut table, row)?;
    }
    Ok(table)
}

/// One row more.
fn read_row(
    alloc: Global,
    scope: PhaseScope<'_>,
    table: &mut RowTable,
    row: &Row,
) -> Result<(), CompFault>
    requires scope { IsPhaseScope (phase_scope_view scope) }
    requires short { IsShort row.now }
    ensures { Gives CompFault.Memory (λ _. table.new) result (after_row (phase_scope_view scope.entry) table.old row.now) }
{
    let form = row_form(row.words.items());
    read_form(alloc, scope, table, row.line, form)
}

/// One row more, of this form.
fn read_form(
    alloc: Global,
    scope: PhaseScope<'_>,
    table: &mut RowTable,
    line: u32,
    form: RowForm<'_>,
) -> Result<(), CompFault>
    requires scope { IsPhaseScope (phase_scope_view scope) }
    requires short { HasShortWords (form_view form) }
    ensures { Gives CompFault.Memory (λ _. table.new) result (after_form (phase_scope_view scope.entry) table.old line (form_view form.entry)) }
{
    match form {
        RowForm::Assign { field, rule } => add_set(alloc, scope, table, line, field, rule),
        RowForm::Check { field, low, high } => add_range(scope, table, line, field, low, high),
        RowForm::Add { field, rule } => add_kept(alloc, scope, table, line, field, rule),
        RowForm::Average { field } => add_average(scope, table, line, field),
        RowForm::Merge { field, factors } => add_merge(alloc, scope, table, line, field, factors),
        RowForm::NoForm => Err(CompFault::BadValue { line }),
    }
}

/// The field that a row is about, where the rules on such rows let it stand.
fn row_field(line: u32, may_stand: bool, place: Option<u16>) -> Result<u16, CompFault>
    ensures { result ≡ row_field line may_stand place }
{
    if !may_stand {
        return Err(CompFault::BadValue { line });
    }
    place.ok_or(CompFault::NameUnknown { line })
}

/// A field takes a rule's value.
fn add_set(
    alloc: Global,
    scope: PhaseScope<'_>,
    table: &mut RowTable,
    line: u32,
    name: &[u8],
    words: &[Text],
) -> Result<(), CompFault>
    requires scope { IsPhaseScope (phase_scope_view scope) }
    requires short { AreShort words.now }
    ensures { Gives CompFault.Memory (λ _. table.new) result (after_form (phase_scope_view scope.entry) table.old line (assign name.now words.now)) }
{
    let place = field_place(scope, name);
    let field = row_field(line, may_write(scope, table, place), place)?;
    let rule = rule_of(alloc, scope.rules, line, words)?;
    table.add_set(SetRow { field, rule })?;
    Ok(())
}

/// A field's values must lie in a range once the phase has run.
fn add_range(
    scope: PhaseScope<'_>,
    table: &mut RowTable,
    line: u32,
    name: &[u8],
    low: i64,
    high: i64,
) -> Result<(), CompFault>
    requires { IsPhaseScope (phase_scope_view scope) }
    ensures { Gives CompFault.Memory (λ _. table.new) result (after_form (phase_scope_view scope.entry) table.old line (check name.now low high)) }
{
    let is_free = table.range_count() < MOST_RANGES;
    let field = row_field(line, is_free, field_place(scope, name))?;
    table.add_range(RangeRow { field, low, high })?;
    Ok(())
}

/// A rule's value is kept for a field.
fn add_kept(
    alloc: Global,
    scope: PhaseScope<'_>,
    table: &mut RowTable,
    line: u32,
    name: &[u8],
    words: &[Text],
) -> Result<(), CompFault>
    requires scope { IsPhaseScope (phase_scope_view scope) }
    requires short { AreShort words.now }
    ensures { Gives CompFault.Memory (λ _. table.new) result (after_form (phase_scope_view scope.entry) table.old line (add name.now words.now)) }
{
    let place = field_place(scope, name);
    let is_free = is_mediator(scope.kind) && may_add(scope, table, place);
    let field = row_field(line, is_free, place)?;
    let rule = rule_of(alloc, scope.rules, line, words)?;
    table.add_kept(SetRow { field, rule })?;
    Ok(())
}

/// A field takes the mean of what was kept for it.
fn add_average(
    scope: PhaseScope<'_>,
    table: &mut RowTable,
    line: u32,
    name: &[u8],
) -> Result<(), CompFault>
    requires { IsPhaseScope (phase_scope_view scope) }
    ensures { Gives CompFault.Memory (λ _. table.new) result (after_form (phase_scope_view scope.entry) table.old line (average name.now)) }
{
    let place = field_place(scope, name);
    let is_free = is_mediator(scope.kind)
        && table.average_count() < MOST_AVERAGES
        && may_write(scope, table, place);
    let field = row_field(line, is_free, place)?;
    table.add_average(field)?;
    Ok(())
}

/// A field takes a sum of products.
fn add_merge(
    alloc: Global,
    scope: PhaseScope<'_>,
    table: &mut RowTable,
    line: u32,
    name: &[u8],
    factors: &[Text],
) -> Result<(), CompFault>
    requires { IsPhaseScope (phase_scope_view scope) }
    ensures { Gives CompFault.Memory (λ _. table.new) result (after_form (phase_scope_view scope.entry) table.old line (merge name.now factors.now)) }
{
    let place = field_place(scope, name);
    let is_free = is_mediator(scope.kind) && may_write(scope, table, place);
    let field = row_field(line, is_free, place)?;
    let Some(terms) = terms_of(alloc, scope, factors)? else {
        return Err(CompFault::NameUnknown { line });
    };
    table.add_merge(MergeRow { field, terms })?;
    Ok(())
}

/// The products of words two by two, if all are fields.
fn terms_of(
    alloc: Global,
    scope: PhaseScope<'_>,
    words: &[Text],
) -> Result<Option<Many<(u16, u16)>>, Memory>
    requires { IsPhaseScope (phase_scope_view scope) }
    ensures { IfOk result (λ terms. terms ≡ terms_with (phase_scope_view scope.entry) [] words.now) }
{
    let mut terms = Vec::new(alloc);
    let mut rest = words;
    while let [first, second, more @ ..] = rest {
        let Some(term) = term_of(scope, first, second) else {
            return Ok(None);
        };
        terms.push(term)?;
        rest = more;
    }
    if rest.is_empty() {
        Ok(Some(Many::of(terms)))
    } else {
        Ok(None)
    }
}

/// A product of two fields, if both are there.
fn term_of(scope: PhaseScope<'_>, first: &Text, second: &Text) -> Option<(u16, u16)>
    requires { IsPhaseScope (phase_scope_view scope) }
    ensures { result ≡ term_of (field_place (phase_scope_view scope.entry) first.now) (field_place (phase_scope_view scope.entry) second.now) }
{
    let first = field_place(scope, first.bytes())?;
    let second = field_place(scope, second.bytes())?;
    Some((first, second))
}

/// The place of a field of this name.
fn field_place(scope: PhaseScope<'_>, name: &[u8]) -> Option<u16>
    requires { IsPhaseScope (phase_scope_view scope) }
    ensures place { result ≡ field_place (phase_scope_view scope.entry) name.now }
    ensures below { IfSome result (λ place. place < length scope.entry.roles.now) }
{
    match place_of(name, scope.rules.fields) {
        Some(place) => Some(place as u16),
        None => None,
    }
}

/// Whether a component is a mediator.
fn is_mediator(kind: Kind) -> bool
    ensures { result ≡ is_mediator kind }
{
    match kind {
        Kind::Model => false,
        Kind::Mediator => true,
    }
}

/// Whether a component may give such a field a value: it is no import.
fn is_own(role: Role) -> bool
    ensures { result ≡ is_own (Some role) }
{
    match role {
        Role::Var | Role::Export => true,
        Role::Import => false,
    }
}

/// Whether a field, if it is there, is no import and has no new value yet.
fn may_write(scope: PhaseScope<'_>, table: &RowTable, place: Option<u16>) -> bool
    requires { IfSome place (λ place. place < length scope.roles.now) }
    ensures { result ≡ may_stand (phase_scope_view scope.entry) (is_written table.now) place }
{
    match place {
        None => true,
        Some(place) => is_own(scope.roles[usize::from(place)]) && !table.is_written(place),
    }
}

/// Whether a field, if it is there, is no import and has no value kept for it yet.
fn may_add(scope: PhaseScope<'_>, table: &RowTable, place: Option<u16>) -> bool
    requires { IfSome place (λ place. place < length scope.roles.now) }
    ensures { result ≡ may_stand (phase_scope_view scope.entry) (is_added table.now) place }
{
    match place {
        None => true,
        Some(place) => is_own(scope.roles[usize::from(place)]) && !table.is_added(place),
    }
}
