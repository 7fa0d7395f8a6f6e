//! Weights, kept row by row.

use crate::columns::Columns;
use crate::marks::{mark_sources, marked_cells};
use crate::rows::{row_between, starts_of};
use cpl_base::{Many, Memory};
use cpl_grid::Decomp;
use cpl_route::Need;
use std::alloc::Global;
use std::marker::Model;

/// The weights of a file, row by row: for each destination cell the source cells that it takes from, ascending,
/// with their weights in billionths. Cells are counted from 1.
///
/// Contracts see the number of source cells, the number of records of the file, and the row of each destination
/// cell.
///
/// Source: this project's own.
#[derive(Debug, Drop)]
pub struct Weights {
    src_cells: u32,
    dst_cells: u32,
    /// Where the row of each destination cell begins among the entries, and where the last one ends.
    starts: Vec<u32>,
    /// Source cells and weights, row after row.
    entries: Vec<(u32, i64)>,
}

impl Model for Weights {
    ghost use Rattle.cpl_smm.specs.Rows.{Table};

    ghost Value = { Table };

    ghost use Rattle.cpl_smm.specs.Kept.{IsKept, table_view};

    ghost view = { table_view };

    ghost invariant = { IsKept };
}

impl Weights {
    ghost use Rattle.std.specs.Prelude.{◌≡◌, ◌≤◌, IfOk, length};
    ghost use Rattle.cpl_grid.specs.Grid.{cells_in};
    ghost use Rattle.cpl_grid.specs.Owners.{IsPet};
    ghost use Rattle.cpl_smm.specs.Needs.{need_of, needs_of};
    ghost use Rattle.cpl_smm.specs.Kept.{AreSorted, numbered, sorted_table};
    ghost use Rattle.cpl_smm.specs.Rows.{IsRow, row_at};

    /// The weights of factors that are sorted by their cells. Takes memory for where each row begins.
    pub(crate) fn of(
        alloc: Global,
        src_cells: u32,
        dst_cells: u32,
        columns: Columns,
    ) -> Result<Weights, Memory>
        requires sizes { length columns.dsts.items ≡ length columns.entries.items }
        requires sorted { AreSorted src_cells (numbered 1 columns.dsts.items columns.entries.items) }
        ensures { IfOk result (λ weights. weights ≡ sorted_table src_cells dst_cells (numbered 1 columns.dsts.items columns.entries.items)) }
    {
        let Columns { dsts, entries } = columns;
        let starts = starts_of(alloc, dsts.as_slice(), dst_cells)?;
        Ok(Weights {
            src_cells,
            dst_cells,
            starts,
            entries,
        })
    }

    /// The row of a destination cell, which is from 1 to their number: source cells, ascending, each with its weight
    /// in billionths. Constant time.
    ///
    /// Source: this project's own.
    pub fn row(&self, dst: u32) -> &[(u32, i64)]
        requires { (1 ≤ dst) × (dst ≤ length self.now.rows) }
        ensures value { result.now ≡ row_at self.now dst }
        ensures row { IsRow self.now.src_cells result.now }
    {
        row_between(
            self.starts.as_slice(),
            self.entries.as_slice(),
            dst as usize - 1,
        )
    }

    /// How many records the file has, and so how many factors.
    ///
    /// Source: this project's own.
    pub fn records(&self) -> u64
        ensures { result ≡ self.now.records }
    {
        self.entries.len() as u64
    }

    /// How many source cells there are.
    ///
    /// Source: this project's own.
    pub fn src_cells(&self) -> u32
        ensures { result ≡ self.now.src_cells }
    {
        self.src_cells
    }

    /// How many destination cells there are.
    ///
    /// Source: this project's own.
    pub fn dst_cells(&self) -> u32
        ensures { result ≡ length self.now.rows }
    {
        self.dst_cells
    }

    /// What each PET of a decomposition of the destination cells needs, its PETs ascending: the source cells from
    /// which a row of its cells takes, ascending, each once; perhaps none. Takes time in the factors, and for each
    /// PET in the number of source cells.
    ///
    /// Source: this project's own.
    pub fn needs(&self, dst: &Decomp) -> Result<Vec<Need>, Memory>
        requires { cells_in dst.now.grid ≡ length self.now.rows }
        ensures { IfOk result (λ needs. needs.items ≡ needs_of self.now dst.now) }
    {
        let alloc = *self.entries.allocator();
        let first = dst.first_pet();
        let mut needs = Vec::new(alloc);
        for k in 0..dst.pets() {
            needs.push(self.need(alloc, dst, first + k)?)?;
        }
        Ok(needs)
    }

    /// What a PET of a decomposition of the destination cells needs.
    fn need(&self, alloc: Global, dst: &Decomp, pet: u8) -> Result<Need, Memory>
        requires cells { cells_in dst.now.grid ≡ length self.now.rows }
        requires pet { IsPet dst.now pet }
        ensures { IfOk result (λ need. need ≡ need_of self.now dst.now pet) }
    {
        let mut marks = Vec::from_elem(alloc, false, self.src_cells as usize + 1)?;
        for k in 0..dst.count(pet) {
            mark_sources(&mut marks, self.row(dst.cell(pet, k)));
        }
        let cells = marked_cells(alloc, marks.as_slice())?;
        Ok(Need {
            pet,
            cells: Many::of(cells),
        })
    }
}
