//! What a phase reads and writes.

ghost use Rattle.std.specs.Prelude.{◌≡◌, ◌==◌, ◌||◌};
ghost use Rattle.std.specs.List.{list_any};
ghost use Rattle.cpl_comp.specs.Components.{written_fields};
ghost use Rattle.cpl_comp.specs.Halos.{has_read, is_cell_of, is_field_at};
ghost use Rattle.cpl_comp.specs.RunFaults.{is_checked, is_read};
ghost use Rattle.cpl_comp.specs.Turns.{is_among};

use cpl_comp::{Kind, MergeRow, Phase, Rule, SetRow};
use cpl_formula::{Argument, Read, ReadName};

/// Whether the runs of a phase look at the stamp of an import that has an export.
pub(crate) fn is_checked(kind: Kind, phase: &Phase, field: u16) -> bool
    ensures { result ≡ is_checked kind phase.now field }
{
    match kind {
        Kind::Model => true,
        Kind::Mediator => is_read(phase, field),
    }
}

/// Whether a phase reads a field by a rule or in a merge.
fn is_read(phase: &Phase, field: u16) -> bool
    ensures { result ≡ is_read phase.now field }
{
    let by_sets = read_by_rows(phase.sets.items(), field);
    let by_adds = read_by_rows(phase.adds.items(), field);
    let by_merges = read_by_merges(phase.merges.items(), field);
    by_sets | by_adds | by_merges
}

/// Whether the rule of one of these rows reads a field.
fn read_by_rows(rows: &[SetRow], field: u16) -> bool
    ensures { result ≡ list_any (λ row. has_read (λ read. is_field_at field read.name) row.rule) rows.now }
{
    rows.iter().any(|row| reads_field(&row.rule, field))
}

/// Whether a rule reads a field.
fn reads_field(rule: &Rule, field: u16) -> bool
    ensures { result ≡ has_read (λ read. is_field_at field read.name) rule.now }
{
    match rule {
        Rule::Plain(parsed) => read_among(parsed.get().reads.items(), field),
        Rule::Native { reads, .. } => read_by_arguments(reads.items(), field),
    }
}

/// Whether a field is among what is read.
fn read_among(reads: &[Read], field: u16) -> bool
    ensures { result ≡ list_any (λ read. is_field_at field read.name) reads.now }
{
    reads.iter().any(|read| is_field_at(read.name, field))
}

/// Whether one of these arguments reads a field.
fn read_by_arguments(arguments: &[Argument], field: u16) -> bool
    ensures { result ≡ list_any (is_cell_of (λ read. is_field_at field read.name)) arguments.now }
{
    arguments
        .iter()
        .any(|argument| is_argument_at(*argument, field))
}

/// Whether an argument reads a field.
fn is_argument_at(argument: Argument, field: u16) -> bool
    ensures { result ≡ is_cell_of (λ read. is_field_at field read.name) argument }
{
    match argument {
        Argument::Number(_) => false,
        Argument::Cell(read) => is_field_at(read.name, field),
    }
}

/// Whether a name is that of a field.
fn is_field_at(name: ReadName, field: u16) -> bool
    ensures { result ≡ is_field_at field name }
{
    match name {
        ReadName::Field(place) => place == field,
        _ => false,
    }
}

/// Whether a product of one of these rows has a field.
fn read_by_merges(rows: &[MergeRow], field: u16) -> bool
    ensures { result ≡ list_any (λ row. list_any (λ term. term.0 == field || term.1 == field) row.terms) rows.now }
{
    rows.iter()
        .any(|row| read_by_terms(row.terms.items(), field))
}

/// Whether one of these products has a field.
fn read_by_terms(terms: &[(u16, u16)], field: u16) -> bool
    ensures { result ≡ list_any (λ term. term.0 == field || term.1 == field) terms.now }
{
    terms.iter().any(|term| term.0 == field || term.1 == field)
}

/// Whether a phase gives a field a new value.
pub(crate) fn is_written(phase: &Phase, field: u16) -> bool
    ensures { result ≡ is_among (written_fields phase.now) field }
{
    let by_sets = sets_field(phase.sets.items(), field);
    let by_merges = merges_field(phase.merges.items(), field);
    let by_averages = has_field(phase.averages.items(), field);
    by_sets | by_merges | by_averages
}

/// Whether one of these rows sets a field.
fn sets_field(rows: &[SetRow], field: u16) -> bool
    ensures { result ≡ list_any (λ row. row.field == field) rows.now }
{
    rows.iter().any(|row| row.field == field)
}

/// Whether one of these rows is a field's sum.
fn merges_field(rows: &[MergeRow], field: u16) -> bool
    ensures { result ≡ list_any (λ row. row.field == field) rows.now }
{
    rows.iter().any(|row| row.field == field)
}

/// Whether a field is among these.
fn has_field(fields: &[u16], field: u16) -> bool
    ensures { result ≡ list_any (λ other. other == field) fields.now }
{
    fields.iter().any(|other| *other == field)
}
