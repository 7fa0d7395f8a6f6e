//! The fields of a component that were read so far, found by their names.

ghost use Rattle.std.specs.Prelude.{◌≡◌, ◌++◌, ◌∷◌, [], false, OnOk, OnErr};
ghost use Rattle.cpl_comp.specs.FieldRows.{has_field};

use crate::field_rows::FieldRow;
use cpl_base::{Many, Memory};
use indexmap::IndexSet;
use std::alloc::Global;
use std::marker::Model;

/// Fields with distinct names, in the order in which they were read. Contracts see the list of them.
#[derive(Drop)]
pub(crate) struct FieldTable {
    alloc: Global,
    rows: Vec<FieldRow>,
    /// Their names, in the same order.
    names: IndexSet<Vec<u8>>,
}

impl Model for FieldTable {
    ghost use Rattle.std.specs.Prelude.{List};
    ghost use Rattle.cpl_comp.specs.declared.field_rows.FieldRow.{FieldRow};
    ghost use Rattle.cpl_comp.specs.NameTable.{HasNames};

    ghost Value = { List FieldRow };

    ghost view = { λ t. t.rows.items };

    ghost invariant = { λ t. HasNames t.names.keys t.rows.items };
}

impl FieldTable {
    /// No fields.
    pub fn new(alloc: Global) -> FieldTable
        ensures { result ≡ [] }
    {
        FieldTable {
            alloc,
            rows: Vec::new(alloc),
            names: IndexSet::new(alloc),
        }
    }

    /// Whether a field of this name is there. Constant time.
    pub fn has_field(&self, name: &[u8]) -> bool
        ensures { result ≡ has_field name.now self.now }
    {
        self.names.contains(name)
    }

    /// Puts a field of a new name behind the others.
    pub fn push(&mut self, row: FieldRow) -> Result<(), Memory>
        requires { has_field row.name self.old ≡ false }
        ensures ok { OnOk result (self.new ≡ self.old ++ row ∷ []) }
        ensures err { OnErr result (self.new ≡ self.old) }
    {
        let name = Vec::from_slice(self.alloc, row.name.bytes())?;
        self.rows.reserve(1)?;
        self.names.insert(name)?;
        self.rows.push(row).unwrap();
        Ok(())
    }

    /// The fields, given back. Takes no memory.
    pub fn into_rows(self) -> Many<FieldRow>
        ensures { result ≡ self }
    {
        let FieldTable {
            alloc: _,
            rows,
            names: _,
        } = self;
        Many::of(rows)
    }
}
