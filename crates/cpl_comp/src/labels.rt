//! Where the items of a component stand: their labels begin with its name.

ghost use Rattle.std.specs.Prelude.{◌≡◌, ◌++◌, IfOk, option_copied};
ghost use Rattle.std.specs.List.{All};
ghost use Rattle.cpl_config.specs.Items.{IsShort};
ghost use Rattle.cpl_comp.specs.Labels.{own_rows, own_values};

use cpl_base::Memory;
use cpl_config::{Items, Row};
use std::alloc::Global;

/// A label: a component's name, and what stands behind it.
pub(crate) fn own_label(alloc: Global, component: &[u8], part: &[u8]) -> Result<Vec<u8>, Memory>
    ensures { IfOk result (λ label. label.items ≡ component.now ++ part.now) }
{
    let mut label = Vec::from_slice(alloc, component)?;
    label.extend_from_slice(part)?;
    Ok(label)
}

/// The values of a component's value item, if it has one.
pub(crate) fn own_values<'a>(
    alloc: Global,
    items: &'a Items,
    component: &[u8],
    part: &[u8],
) -> Result<Option<&'a Row>, Memory>
    ensures { IfOk result (λ row. option_copied row ≡ own_values items.entry.now component.now part.now) }
{
    let label = own_label(alloc, component, part)?;
    Ok(items.value(label.as_slice()))
}

/// The rows of a component's table, none where it has none.
pub(crate) fn own_rows<'a>(
    alloc: Global,
    items: &'a Items,
    component: &[u8],
    part: &[u8],
) -> Result<&'a [Row], Memory>
    ensures rows { IfOk result (λ rows. rows.now ≡ own_rows items.entry.now component.now part.now) }
    ensures short { IfOk result (λ rows. All IsShort rows.now) }
{
    let label = own_label(alloc, component, part)?;
    match items.table(label.as_slice()) {
        Some(rows) => Ok(rows),
        None => Ok(&[]),
    }
}
