//! The ranges of a phase, checked over a block.

ghost use Rattle.std.specs.Prelude.{◌≡◌, ◌<◌, ◌≤◌, All, List, ℕ, length};
ghost use Rattle.std.specs.List.{flat_map};
ghost use Rattle.cpl_comp.specs.RunFaults.{cell_faults};
ghost use Rattle.cpl_comp.specs.Worlds.{FieldWorld};
ghost use Rattle.cpl_grid.specs.Parts.{cells_of_part};
ghost use Rattle.cpl_marks.specs.Faults.{least_fault, noted_fault};
ghost use Rattle.cpl_phase.specs.Checks.{block_faults, place_faults, value_fault};
ghost use Rattle.cpl_phase.specs.Refreshed.{AreOnBlock};
ghost use Rattle.cpl_phase.specs.Sites.{AreSites};
ghost use Rattle.cpl_phase.specs.Worlds.{HoldFields};

use crate::sites::Sites;
use cpl_block::Frame;
use cpl_comp::{FoundKind, RangeRow};
use cpl_field::Field;
use cpl_marks::{PhaseFault, note};

/// Checks ranges at all cells of a block, and notes the least fault. Takes no memory.
///
/// Source: this project's own.
pub fn check_ranges(
    frame: &Frame,
    sites: &Sites,
    fields: &[Field],
    rows: &[RangeRow],
    found: &mut Option<PhaseFault>,
)
    requires sites { AreSites frame.now sites.now }
    requires fields { AreOnBlock frame.now (length fields.now) fields.now }
    requires rows { All (λ row. row.field < length fields.now) rows.now }
    requires count { length rows.now ≤ 8 }
    ensures value { noted_fault found.new ≡ least_fault (noted_fault found.old) (block_faults frame.now fields.now rows.now) }
    // Those of the whole component at the block's cells.
    ensures world { (count : ℕ) (world : List FieldWorld) → HoldFields frame.now count world fields.now → All (λ row. row.field < count) rows.now
        → noted_fault found.new ≡ least_fault (noted_fault found.old)
        (flat_map (cell_faults world rows.now) (cells_of_part frame.now.grid frame.now.part)) }
{
    check_sites(frame, sites, fields, rows, found);
}

/// The same, without a whole component.
fn check_sites(
    frame: &Frame,
    sites: &Sites,
    fields: &[Field],
    rows: &[RangeRow],
    found: &mut Option<PhaseFault>,
)
    requires sites { AreSites frame.now sites.now }
    requires fields { AreOnBlock frame.now (length fields.now) fields.now }
    requires rows { All (λ row. row.field < length fields.now) rows.now }
    requires count { length rows.now ≤ 8 }
    ensures { noted_fault found.new ≡ least_fault (noted_fault found.old) (block_faults frame.now fields.now rows.now) }
{
    for k in 0..sites.cells.len() {
        check_place(fields, rows, sites.homes[k], sites.cells[k], found);
    }
}

/// Checks ranges at a cell whose values stand at a place.
fn check_place(
    fields: &[Field],
    rows: &[RangeRow],
    place: u32,
    s: u32,
    found: &mut Option<PhaseFault>,
)
    requires place { All (λ field. place < length field) fields.now }
    requires rows { All (λ row. row.field < length fields.now) rows.now }
    requires count { length rows.now ≤ 8 }
    ensures { noted_fault found.new ≡ least_fault (noted_fault found.old) (place_faults fields.now rows.now place s) }
{
    for number in 0..rows.len() {
        let row = &rows[number];
        let value = fields[row.field as usize].values()[place as usize];
        check_value(row, number, s, value, found);
    }
}

/// Checks a value of a cell.
fn check_value(row: &RangeRow, number: usize, s: u32, value: i64, found: &mut Option<PhaseFault>)
    requires { number < 8 }
    ensures { noted_fault found.new ≡ least_fault (noted_fault found.old) (value_fault s value (number, row.now)) }
{
    if value < row.low || row.high < value {
        let kind = FoundKind::Range {
            field: row.field,
            cell: s,
            value,
            low: row.low,
            high: row.high,
        };
        let place = 129 + u64::from(s.saturating_sub(1)) * 8 + number as u64;
        note(found, PhaseFault { place, kind });
    }
}
