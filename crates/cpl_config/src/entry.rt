//! The entries of a resource file: value items and tables, each under its label.

ghost use Rattle.std.specs.Prelude.{◌≡◌, option_copied};
ghost use Rattle.cpl_config.specs.Items.{row_in, table_in};

use crate::row::{Row, Table};
use cpl_base::Text;

/// What stands under a label.
#[derive(Drop)]
pub enum Item {
    /// The values of a value item `LABEL: values`.
    Values(Row),
    /// The rows of a table, from `LABEL::` to `::`.
    Rows(Table),
}

/// A label with what stands under it.
#[derive(Drop)]
pub struct Entry {
    /// The label, without its colons.
    pub label: Text,
    /// What stands under it.
    pub item: Item,
}

/// The values of a value item, if the item is one.
pub(crate) fn row_in(item: &Item) -> Option<&Row>
    ensures { option_copied result ≡ row_in item.now }
{
    match item {
        Item::Values(row) => Some(row),
        Item::Rows(_) => None,
    }
}

/// The table, if the item is one.
pub(crate) fn table_in(item: &Item) -> Option<&Table>
    ensures { option_copied result ≡ table_in item.now }
{
    match item {
        Item::Values(_) => None,
        Item::Rows(table) => Some(table),
    }
}
