//! Source cells that are marked, each by its number.

ghost use Rattle.std.specs.Prelude.{◌≡◌, ℕ, ◌-◌, ◌<◌, ◌≤◌, ◌^◌, ◌||◌, ◌++◌, [], ◌∷◌, if◌then◌else◌, All, IfOk, OnOk, filter, length};
ghost use Rattle.std.specs.List.{range_with_len};
ghost use Rattle.cpl_smm.specs.Kept.{is_marked};
ghost use Rattle.cpl_smm.specs.Needs.{has_source};

use cpl_base::Memory;
use std::alloc::Global;

/// Marks the source cells of a row.
pub(crate) fn mark_sources(marks: &mut Vec<bool>, row: &[(u32, i64)])
    requires { All (λ entry. entry.0 < length marks.old.items) row.now }
    ensures count { length marks.new.items ≡ length marks.old.items }
    ensures marked { (src : ℕ) → is_marked marks.new.items src ≡ (is_marked marks.old.items src || has_source src row.now) }
{
    for entry in row {
        marks[entry.0 as usize] = true;
    }
}

/// The cells that are marked, ascending, without the cell 0.
pub(crate) fn marked_cells(alloc: Global, marks: &[bool]) -> Result<Vec<u32>, Memory>
    requires some { 1 ≤ length marks.now }
    requires few { length marks.now ≤ 2 ^ 32 }
    ensures { IfOk result (λ cells. cells.items ≡ filter (is_marked marks.now) (range_with_len 1 (length marks.now - 1))) }
{
    let mut cells = Vec::new(alloc);
    for src in 1..marks.len() {
        push_if(marks[src], &mut cells, src as u32)?;
    }
    Ok(cells)
}

/// Appends a cell where it is marked.
fn push_if(marked: bool, cells: &mut Vec<u32>, src: u32) -> Result<(), Memory>
    ensures { OnOk result (cells.new.items ≡ cells.old.items ++ (if marked then src ∷ [] else [])) }
{
    if marked {
        cells.push(src)?;
    }
    Ok(())
}
