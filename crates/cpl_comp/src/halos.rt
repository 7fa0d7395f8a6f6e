//! What rules read beside the cell.

ghost use Rattle.std.specs.Prelude.{◌≡◌, ◌<◌, ◌≤◌, Some, filter, slice_get, IfOk};
ghost use Rattle.std.specs.List.{list_any, range_with_len};
ghost use Rattle.cpl_comp.specs.Halos.{halo_of, has_read, is_cell_of, is_field_at, is_read_at, is_read_beside, is_wanted, near_offsets};
ghost use Rattle.cpl_comp.specs.Views.{rules_in};

use crate::component::{Halo, Rule};
use cpl_base::{Many, Memory};
use cpl_formula::{Argument, Read, ReadName};
use std::alloc::Global;

/// Which reads are looked for.
#[derive(Clone, Copy)]
pub(crate) enum ReadKind {
    /// Those of a neighbour, so many columns and rows away.
    At((i8, i8)),
    /// Those of a field at a neighbour.
    Beside(u16),
}

/// Columns and rows to the neighbours, row by row.
const NEAR: [(i8, i8); 24] = [
    (-2, -2),
    (-1, -2),
    (0, -2),
    (1, -2),
    (2, -2),
    (-2, -1),
    (-1, -1),
    (0, -1),
    (1, -1),
    (2, -1),
    (-2, 0),
    (-1, 0),
    (1, 0),
    (2, 0),
    (-2, 1),
    (-1, 1),
    (0, 1),
    (1, 1),
    (2, 1),
    (-2, 2),
    (-1, 2),
    (0, 2),
    (1, 2),
    (2, 2),
];

/// What rules over so many fields, at most 64, read beside the cell. Time is linear in what they read.
#[tactic(auto, unfolding(crate::specs::Halos::halo_of))]
pub(crate) fn halo_of(alloc: Global, count: usize, rules: &[&Rule]) -> Result<Halo, Memory>
    requires { count ≤ 64 }
    ensures { IfOk result (λ halo. halo ≡ halo_of count (rules_in rules.now)) }
{
    let offsets = offsets_of(alloc, rules)?;
    let fields = fields_of(alloc, count, rules)?;
    Ok(Halo { offsets, fields })
}

/// The neighbours that are read.
fn offsets_of(alloc: Global, rules: &[&Rule]) -> Result<Many<(i8, i8)>, Memory>
    ensures { IfOk result (λ offsets. offsets ≡ filter (λ offset. list_any (has_read (is_read_at offset)) (rules_in rules.now)) near_offsets) }
{
    let mut offsets = Vec::new(alloc);
    for place in 0..NEAR.len() {
        let offset = near_offset(place);
        if some_has(ReadKind::At(offset), rules) {
            offsets.push(offset)?;
        }
    }
    Ok(Many::of(offsets))
}

/// The neighbour of this place, row by row.
fn near_offset(place: usize) -> (i8, i8)
    requires { place < 24 }
    ensures { slice_get near_offsets place ≡ Some result }
{
    NEAR[place]
}

/// The fields that are read at a neighbour.
fn fields_of(alloc: Global, count: usize, rules: &[&Rule]) -> Result<Many<u16>, Memory>
    requires { count ≤ 64 }
    ensures { IfOk result (λ fields. fields ≡ filter (λ field. list_any (has_read (is_read_beside field)) (rules_in rules.now)) (range_with_len 0 count)) }
{
    let mut fields = Vec::new(alloc);
    for place in 0..count {
        let field = place as u16;
        if some_has(ReadKind::Beside(field), rules) {
            fields.push(field)?;
        }
    }
    Ok(Many::of(fields))
}

/// Whether some rule has a read of this kind.
fn some_has(kind: ReadKind, rules: &[&Rule]) -> bool
    ensures { result ≡ list_any (has_read (is_wanted kind)) (rules_in rules.now) }
{
    rules.iter().any(|rule| has_read(kind, rule))
}

/// Whether a rule has a read of this kind.
fn has_read(kind: ReadKind, rule: &Rule) -> bool
    ensures { result ≡ has_read (is_wanted kind) rule.now }
{
    match rule {
        Rule::Plain(parsed) => is_among_reads(kind, parsed.get().reads.items()),
        Rule::Native { reads, .. } => is_among_arguments(kind, reads.items()),
    }
}

/// Whether a read of this kind is among these.
fn is_among_reads(kind: ReadKind, reads: &[Read]) -> bool
    ensures { result ≡ list_any (is_wanted kind) reads.now }
{
    reads.iter().any(|read| is_wanted(kind, *read))
}

/// Whether a read of this kind is among arguments.
fn is_among_arguments(kind: ReadKind, arguments: &[Argument]) -> bool
    ensures { result ≡ list_any (is_cell_of (is_wanted kind)) arguments.now }
{
    arguments.iter().any(|argument| is_cell_of(kind, *argument))
}

/// Whether an argument is a read of this kind.
fn is_cell_of(kind: ReadKind, argument: Argument) -> bool
    ensures { result ≡ is_cell_of (is_wanted kind) argument }
{
    match argument {
        Argument::Number(_) => false,
        Argument::Cell(read) => is_wanted(kind, read),
    }
}

/// Whether a read is of this kind.
fn is_wanted(kind: ReadKind, read: Read) -> bool
    ensures { result ≡ is_wanted kind read }
{
    match kind {
        ReadKind::At(offset) => read.dx == offset.0 && read.dy == offset.1,
        ReadKind::Beside(field) => {
            is_field_at(field, read.name) && !(read.dx == 0 && read.dy == 0)
        }
    }
}

/// Whether a name is that of a field.
fn is_field_at(field: u16, name: ReadName) -> bool
    ensures { result ≡ is_field_at field name }
{
    match name {
        ReadName::Field(place) => place == field,
        _ => false,
    }
}
