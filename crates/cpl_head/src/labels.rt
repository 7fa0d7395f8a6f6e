//! What stands under a label that must be there, and the rows of a table that need not.

ghost use Rattle.std.specs.Prelude.{◌≡◌, ◌⊎◌};
ghost use Rattle.cpl_base.specs.Gives.{Gives};
ghost use Rattle.cpl_head.specs.Head.{needed_value, table_check};
ghost use Rattle.cpl_head.specs.Tables.{rows_under};

use crate::fault::HeadFault;
use cpl_base::Text;
use cpl_config::{Items, Row};
use std::alloc::Global;

/// The value item of a label that must be there.
pub(crate) fn needed_value<'a>(
    alloc: Global,
    items: &'a Items,
    label: &[u8],
) -> Result<&'a Row, HeadFault>
    ensures { Gives HeadFault.Memory (λ row. row.now) result (needed_value label.now items.entry.now) }
{
    match items.value(label) {
        Some(row) => Ok(row),
        None => Err(missing(alloc, label)),
    }
}

/// The table of a label that must be there is there.
pub(crate) fn check_table(alloc: Global, items: &Items, label: &[u8]) -> Result<(), HeadFault>
    ensures { Gives HeadFault.Memory (λ _. tt) result (table_check label.now items.now) }
{
    match items.table(label) {
        Some(_) => Ok(()),
        None => Err(missing(alloc, label)),
    }
}

/// The fault of a label that isn't there.
fn missing(alloc: Global, label: &[u8]) -> HeadFault
    ensures { (result ≡ HeadFault.Memory) ⊎ (result ≡ HeadFault.MissingLabel label.now) }
{
    match Text::of(alloc, label) {
        Ok(label) => HeadFault::MissingLabel { label },
        Err(_) => HeadFault::Memory,
    }
}

/// The rows of the table of a label, none where it isn't there.
pub(crate) fn rows_under<'a>(items: &'a Items, label: &[u8]) -> &'a [Row]
    ensures { result.now ≡ rows_under label.now items.entry.now }
{
    match items.table(label) {
        Some(rows) => rows,
        None => &[],
    }
}
