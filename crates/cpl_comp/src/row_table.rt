//! What the rows of a phase say so far.

ghost use Rattle.std.specs.Prelude.{◌≡◌, ◌==◌, length, OnOk};
ghost use Rattle.std.specs.List.{list_any};
ghost use Rattle.cpl_comp.specs.PhaseRows.{is_added, is_written, no_rows, with_add, with_average, with_merge, with_range, with_set};

use crate::component::{MergeRow, RangeRow, SetRow};
use cpl_base::Memory;
use std::alloc::Global;
use std::marker::Model;

/// The rows of a phase, each kind in the order of the table.
#[derive(Drop)]
pub(crate) struct RowTable {
    pub sets: Vec<SetRow>,
    pub merges: Vec<MergeRow>,
    pub adds: Vec<SetRow>,
    pub averages: Vec<u16>,
    pub ranges: Vec<RangeRow>,
}

impl Model for RowTable {
    ghost use Rattle.cpl_comp.specs.PhaseRows.{PhaseRows};
    ghost use Rattle.cpl_formula.specs.contracts.formula.Formula as formula;
    ghost use Rattle.std.specs.Coded.{codes};

    ghost Value = { PhaseRows };

    ghost coded = { Prim.hlevel (codes, formula.the_row.coded) };

    ghost view = { λ t. record { sets = t.sets.items; merges = t.merges.items; adds = t.adds.items; averages = t.averages.items; ranges = t.ranges.items } };
}

impl RowTable {
    /// No rows.
    pub fn new(alloc: Global) -> RowTable
        ensures { result ≡ no_rows }
    {
        RowTable {
            sets: Vec::new(alloc),
            merges: Vec::new(alloc),
            adds: Vec::new(alloc),
            averages: Vec::new(alloc),
            ranges: Vec::new(alloc),
        }
    }

    /// Whether an assignment, a merge or an average gives a field its new value.
    pub fn is_written(&self, field: u16) -> bool
        ensures { result ≡ is_written self.now field }
    {
        sets_field(self.sets.as_slice(), field)
            || merges_field(self.merges.as_slice(), field)
            || has_field(self.averages.as_slice(), field)
    }

    /// Whether a value is kept for a field.
    pub fn is_added(&self, field: u16) -> bool
        ensures { result ≡ is_added self.now field }
    {
        sets_field(self.adds.as_slice(), field)
    }

    /// How many averages there are.
    pub fn average_count(&self) -> usize
        ensures { result ≡ length self.now.averages }
    {
        self.averages.len()
    }

    /// How many ranges there are.
    pub fn range_count(&self) -> usize
        ensures { result ≡ length self.now.ranges }
    {
        self.ranges.len()
    }

    /// A field takes a rule's value.
    pub fn add_set(&mut self, row: SetRow) -> Result<(), Memory>
        ensures { OnOk result (self.new ≡ with_set self.old row) }
    {
        self.sets.push(row)?;
        Ok(())
    }

    /// A field takes a sum of products.
    pub fn add_merge(&mut self, row: MergeRow) -> Result<(), Memory>
        ensures { OnOk result (self.new ≡ with_merge self.old row) }
    {
        self.merges.push(row)?;
        Ok(())
    }

    /// A rule's value is kept for a field.
    pub fn add_kept(&mut self, row: SetRow) -> Result<(), Memory>
        ensures { OnOk result (self.new ≡ with_add self.old row) }
    {
        self.adds.push(row)?;
        Ok(())
    }

    /// A field takes the mean of what was kept for it.
    pub fn add_average(&mut self, field: u16) -> Result<(), Memory>
        ensures { OnOk result (self.new ≡ with_average self.old field) }
    {
        self.averages.push(field)?;
        Ok(())
    }

    /// A field's values must lie in a range once the phase has run.
    pub fn add_range(&mut self, row: RangeRow) -> Result<(), Memory>
        ensures { OnOk result (self.new ≡ with_range self.old row) }
    {
        self.ranges.push(row)?;
        Ok(())
    }
}

/// Whether a rule of these rows is a field's.
fn sets_field(rows: &[SetRow], field: u16) -> bool
    ensures { result ≡ list_any (λ row. row.field == field) rows.now }
{
    rows.iter().any(|row| row.field == field)
}

/// Whether a sum of these rows is a field's.
fn merges_field(rows: &[MergeRow], field: u16) -> bool
    ensures { result ≡ list_any (λ row. row.field == field) rows.now }
{
    rows.iter().any(|row| row.field == field)
}

/// Whether a field is among these.
fn has_field(fields: &[u16], field: u16) -> bool
    ensures { result ≡ list_any (λ other. other == field) fields.now }
{
    fields.iter().any(|other| *other == field)
}
