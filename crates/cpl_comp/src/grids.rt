//! The grid of a component, how it is cut into blocks, and its substep.

ghost use Rattle.std.specs.Prelude.{◌≡◌, ◌≤◌, ◌+◌, ◌^◌, IfOk, IfSome, option_copied, option_map};
ghost use Rattle.cpl_base.specs.Gives.{Gives};
ghost use Rattle.cpl_grid.specs.Grid.{IsGrid};
ghost use Rattle.cpl_comp.specs.Grids.{block_words, blocks_in, count_pair, few_cells, grid_in, grid_words, layout_of, substep_in, substep_of, substep_words};
ghost use Rattle.cpl_comp.specs.Realised.{layout_in};
ghost use Rattle.cpl_comp.specs.Views.{shape_view};

use crate::component::Kind;
use crate::fault::CompFault;
use crate::field_words::is_word;
use crate::labels::own_values;
use cpl_base::{Text, number_between};
use cpl_config::{Items, Row};
use cpl_grid::{Decomp, Grid};
use std::alloc::Global;

/// A grid has at most so many cells.
const MOST_CELLS: u128 = 1_048_576;

/// A grid is cut into at most so many blocks in one direction.
const MOST_BLOCKS: u64 = 1_048_576;

/// The greatest number that a word may write.
const MOST_NUMBER: u64 = 1_000_000_000_000_000_000;

/// The longest substep in seconds.
const MOST_SUBSTEP: u64 = 1_000_000_000;

/// Columns and rows as a file has them, which may be too many.
#[derive(Clone, Copy)]
pub(crate) struct Shape {
    /// How many columns.
    pub columns: u64,
    /// How many rows.
    pub rows: u64,
    /// Whether the columns are a ring.
    pub periodic: bool,
}

/// The decomposed grid of a component, which has so many PETs from the first on.
pub(crate) fn layout_in(
    alloc: Global,
    items: &Items,
    component: &[u8],
    first_pet: u8,
    pets: u8,
) -> Result<Decomp, CompFault>
    requires { (1 ≤ pets) × (first_pet + pets ≤ 64) }
    ensures { Gives CompFault.Memory (λ decomp. decomp) result (layout_in items.now component.now first_pet pets) }
{
    let grid = grid_in(own_values(alloc, items, component, b"_grid")?)?;
    let blocks = blocks_in(pets, own_values(alloc, items, component, b"_decomp")?)?;
    layout_of(grid, first_pet, pets, blocks)
}

/// The grid of a component, of at most 2^20 cells.
fn grid_in(row: Option<&Row>) -> Result<Grid, CompFault>
    ensures value { result ≡ grid_in (option_copied row.entry) }
    ensures grid { IfOk result IsGrid }
{
    let Some(row) = row else {
        return Err(CompFault::NoGrid);
    };
    let Some(shape) = shape_words(row.words.items()) else {
        return Err(CompFault::BadValue { line: row.line });
    };
    match grid_of(shape) {
        Some(grid) => Ok(grid),
        None => Err(CompFault::TooManyCells { line: row.line }),
    }
}

/// The grid of these columns and rows, if it doesn't have too many cells.
fn grid_of(shape: Shape) -> Option<Grid>
    requires columns { 1 ≤ shape.columns }
    requires rows { 1 ≤ shape.rows }
    ensures value { result ≡ few_cells (shape_view shape) }
    ensures grid { IfSome result IsGrid }
{
    if u128::from(shape.columns) * u128::from(shape.rows) > MOST_CELLS {
        return None;
    }
    Some(Grid {
        nx: shape.columns as u32,
        ny: shape.rows as u32,
        periodic: shape.periodic,
    })
}

/// Columns and rows, and whether the columns are a ring: `nx ny` or `nx ny periodic`.
fn shape_words(words: &[Text]) -> Option<Shape>
    ensures value { option_map shape_view result ≡ grid_words words.now }
    ensures columns { IfSome result (λ shape. 1 ≤ shape.columns) }
    ensures rows { IfSome result (λ shape. 1 ≤ shape.rows) }
{
    let (columns, rows, periodic) = match words {
        [columns, rows] => (columns, rows, false),
        [columns, rows, ring] if is_word(ring, b"periodic") => (columns, rows, true),
        _ => return None,
    };
    let (columns, rows) = count_pair(MOST_NUMBER, columns.bytes(), rows.bytes())?;
    Some(Shape {
        columns,
        rows,
        periodic,
    })
}

/// Two numbers from 1 to a most.
fn count_pair(most: u64, first: &[u8], second: &[u8]) -> Option<(u64, u64)>
    ensures value { result ≡ count_pair most first.now second.now }
    ensures first { IfSome result (λ pair. (1 ≤ pair.0) × (pair.0 ≤ most)) }
    ensures second { IfSome result (λ pair. (1 ≤ pair.1) × (pair.1 ≤ most)) }
{
    let m = number_between(1, most, first)?;
    let n = number_between(1, most, second)?;
    Some((m, n))
}

/// How many blocks of columns and of rows a component's grid is cut into: one of columns for each of its
/// PETs, where they aren't given.
fn blocks_in(pets: u8, row: Option<&Row>) -> Result<(u32, u32), CompFault>
    requires { 1 ≤ pets }
    ensures value { result ≡ blocks_in pets (option_copied row.entry) }
    ensures columns { IfOk result (λ blocks. (1 ≤ blocks.0) × (blocks.0 ≤ 2 ^ 20)) }
    ensures rows { IfOk result (λ blocks. (1 ≤ blocks.1) × (blocks.1 ≤ 2 ^ 20)) }
{
    let Some(row) = row else {
        return Ok((u32::from(pets), 1));
    };
    match block_words(row.words.items()) {
        Some(blocks) => Ok(blocks),
        None => Err(CompFault::BadValue { line: row.line }),
    }
}

/// Two numbers of blocks.
fn block_words(words: &[Text]) -> Option<(u32, u32)>
    ensures value { result ≡ block_words words.now }
    ensures columns { IfSome result (λ blocks. (1 ≤ blocks.0) × (blocks.0 ≤ 2 ^ 20)) }
    ensures rows { IfSome result (λ blocks. (1 ≤ blocks.1) × (blocks.1 ≤ 2 ^ 20)) }
{
    match words {
        [columns, rows] => {
            let (columns, rows) = count_pair(MOST_BLOCKS, columns.bytes(), rows.bytes())?;
            Some((columns as u32, rows as u32))
        }
        _ => None,
    }
}

/// The decomposition of a grid into blocks, one for each PET from the first on.
fn layout_of(grid: Grid, first_pet: u8, pets: u8, blocks: (u32, u32)) -> Result<Decomp, CompFault>
    requires grid { IsGrid grid }
    requires columns { (1 ≤ blocks.0) × (blocks.0 ≤ 2 ^ 20) }
    requires rows { (1 ≤ blocks.1) × (blocks.1 ≤ 2 ^ 20) }
    requires pets { (1 ≤ pets) × (first_pet + pets ≤ 64) }
    ensures { result ≡ layout_of grid first_pet pets blocks }
{
    match Decomp::new(grid, blocks.0, blocks.1, first_pet, pets) {
        Ok(decomp) => Ok(decomp),
        Err(mismatch) => Err(CompFault::BlocksMismatch {
            blocks: mismatch.blocks,
            pets: mismatch.pets,
        }),
    }
}

/// The substep of a component; a mediator has none.
pub(crate) fn substep_in(kind: Kind, row: Option<&Row>) -> Result<Option<i64>, CompFault>
    ensures { result ≡ substep_in kind (option_copied row.entry) }
{
    let Some(row) = row else {
        return Ok(None);
    };
    match substep_words(row.words.items()) {
        Some(seconds) => Ok(substep_of(kind, seconds)),
        None => Err(CompFault::BadValue { line: row.line }),
    }
}

/// The one number of seconds.
fn substep_words(words: &[Text]) -> Option<u64>
    ensures value { result ≡ substep_words words.now }
    ensures within { IfSome result (λ seconds. seconds ≤ 1000000000) }
{
    match words {
        [word] => number_between(1, MOST_SUBSTEP, word.bytes()),
        _ => None,
    }
}

/// The seconds that one operation of a run leads on, where a step has several; a mediator's step has one.
fn substep_of(kind: Kind, seconds: u64) -> Option<i64>
    requires { seconds ≤ 1000000000 }
    ensures { result ≡ substep_of kind seconds }
{
    match kind {
        Kind::Model => Some(seconds as i64),
        Kind::Mediator => None,
    }
}
