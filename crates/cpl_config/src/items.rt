//! The items of a file, kept in their order and found by their labels.

ghost use Rattle.std.specs.Prelude.{◌≡◌, ◌++◌, ◌∷◌, [], None, OnOk, OnErr, IfSome, is_some, option_copied, option_map};
ghost use Rattle.std.specs.List.{All};
ghost use Rattle.cpl_config.specs.Items.{HasShortRows, IsShort, table_entry, table_under, value_entry, value_under};
ghost use Rattle.cpl_config.specs.Kept.{item_at};

use crate::entry::{Entry, Item, row_in, table_in};
use crate::row::{Row, Table};
use cpl_base::{Memory, Text};
use indexmap::IndexMap;
use std::alloc::Global;
use std::marker::Model;

/// The items of a resource file: value items and tables, each under its label. A value item and a table of
/// one label are two entries.
///
/// Contracts see the entries, in the order of the file.
#[derive(Drop)]
pub struct Items {
    alloc: Global,
    /// The entries, in the order of the file.
    entries: Vec<Entry>,
    /// The places of the value items, by their labels.
    values: IndexMap<Vec<u8>, usize>,
    /// The places of the tables, by their labels.
    tables: IndexMap<Vec<u8>, usize>,
}

impl Model for Items {
    ghost use Rattle.std.specs.Prelude.{List};
    ghost use Rattle.cpl_config.specs.declared.entry.Entry.{Entry};
    ghost use Rattle.cpl_config.specs.Kept.{IsKept};

    ghost Value = { List Entry };

    ghost view = { λ items. items.entries.items };

    ghost invariant = { λ items. IsKept items.entries.items items.values.entries items.tables.entries };
}

impl Items {
    /// The entries, in the order of the file. Constant time.
    ///
    /// Source: this project's own.
    pub fn entries(&self) -> &[Entry]
        ensures entries { result.now ≡ self.now }
        // The words of each row, joined by single blanks, have fewer than 2^32 bytes.
        ensures short { All (λ entry. HasShortRows entry.item) result.now }
    {
        self.entries.as_slice()
    }

    /// The values of the value item of this label, or nothing exactly where there is none. Constant time.
    ///
    /// Source: ESMF Reference Manual, Config class.
    pub fn value(&self, label: &[u8]) -> Option<&Row>
        ensures value { option_copied result ≡ value_under label.now self.now }
        // Its words, joined by single blanks, have fewer than 2^32 bytes.
        ensures short { IfSome result (λ row. IsShort row.now) }
    {
        let item = self.item_at(self.values.get(label))?;
        row_in(item)
    }

    /// The rows of the table of this label, or nothing exactly where there is none. Constant time.
    ///
    /// Source: ESMF Reference Manual, Config class.
    pub fn table(&self, label: &[u8]) -> Option<&[Row]>
        ensures value { option_map (λ rows. rows.now) result ≡ option_map (λ table. table.rows) (table_under label.now self.now) }
        // The words of each row, joined by single blanks, have fewer than 2^32 bytes.
        ensures short { IfSome result (λ rows. All IsShort rows.now) }
    {
        self.whole_table(label).map(|table| table.rows.items())
    }

    /// The number of the line that opens the table of this label, or nothing exactly where there is
    /// none. Constant time.
    ///
    /// Source: this project's own.
    pub fn table_line(&self, label: &[u8]) -> Option<u32>
        ensures { result ≡ option_map (λ table. table.line) (table_under label.now self.now) }
    {
        self.whole_table(label).map(|table| table.line)
    }

    /// The table of this label.
    fn whole_table(&self, label: &[u8]) -> Option<&Table>
        ensures value { option_copied result ≡ table_under label.now self.now }
        ensures short { IfSome result (λ table. All IsShort table.now.rows) }
    {
        let item = self.item_at(self.tables.get(label))?;
        table_in(item)
    }

    /// The item at a place, if it is one.
    fn item_at(&self, place: Option<&usize>) -> Option<&Item>
        ensures { option_copied result ≡ item_at self.now (option_copied place.entry) }
    {
        let place = place?;
        let entry = self.entries.get(*place)?;
        Some(&entry.item)
    }

    /// No items.
    pub(crate) fn new(alloc: Global) -> Items
        ensures { result ≡ [] }
    {
        Items {
            alloc,
            entries: Vec::new(alloc),
            values: IndexMap::new(alloc),
            tables: IndexMap::new(alloc),
        }
    }

    /// Whether there is a value item of this label.
    pub(crate) fn has_value(&self, label: &[u8]) -> bool
        ensures { result ≡ is_some (value_under label.now self.now) }
    {
        self.values.contains_key(label)
    }

    /// Whether there is a table of this label.
    pub(crate) fn has_table(&self, label: &[u8]) -> bool
        ensures { result ≡ is_some (table_under label.now self.now) }
    {
        self.tables.contains_key(label)
    }

    /// Puts a value item behind the other entries.
    pub(crate) fn add_value(&mut self, label: Text, row: Row) -> Result<(), Memory>
        requires fresh { value_under label self.old ≡ None }
        requires short { IsShort row }
        ensures ok { OnOk result (self.new ≡ self.old ++ value_entry label row ∷ []) }
        ensures err { OnErr result (self.new ≡ self.old) }
    {
        let key = Vec::from_slice(self.alloc, label.bytes())?;
        self.entries.reserve(1)?;
        self.values.insert(key, self.entries.len())?;
        let item = Item::Values(row);
        self.entries.push(Entry { label, item }).unwrap();
        Ok(())
    }

    /// Puts a table behind the other entries.
    pub(crate) fn add_table(&mut self, label: Text, table: Table) -> Result<(), Memory>
        requires fresh { table_under label self.old ≡ None }
        requires short { All IsShort table.rows }
        ensures ok { OnOk result (self.new ≡ self.old ++ table_entry label table ∷ []) }
        ensures err { OnErr result (self.new ≡ self.old) }
    {
        let key = Vec::from_slice(self.alloc, label.bytes())?;
        self.entries.reserve(1)?;
        self.tables.insert(key, self.entries.len())?;
        let item = Item::Rows(table);
        self.entries.push(Entry { label, item }).unwrap();
        Ok(())
    }
}
