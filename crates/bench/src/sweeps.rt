//! Values of one formula over a block of cells with a ring around it, by a sweep and by loops that are written out.

ghost use Rattle.std.specs.Prelude.{◌≡◌, ◌<◌, ◌+◌, ◌≤◌, All, IsTrue, length};
ghost use Rattle.cpl_base.specs.Numbers.{IsValue};
ghost use Rattle.cpl_formula.specs.Tree.{is_over};
ghost use Rattle.cpl_sweep.specs.Places.{IsPlace};

use cpl_base::GREATEST;
use cpl_field::Field;
use cpl_formula::Formula;
use cpl_sweep::{Place, STRIP, scratch_rows, sweep};
use std::alloc::{AllocError, Global};
use std::io;
use std::rt::Clock;
use std::time::{Duration, Instant};

/// The greatest value, in millionths.
const MOST: i64 = GREATEST as i64;

/// A multiple of the divisors in the formula, above all values.
const MOVED: i64 = 10_000_000_000_000_000;

/// A block of cells, and a ring of one cell around it, in rows.
#[derive(Clone, Copy)]
pub struct Block {
    /// The columns of the block.
    pub columns: usize,
    /// Its rows.
    pub rows: usize,
}

impl Block {
    /// How long a row is, with the ring.
    fn row(&self) -> usize {
        self.columns.saturating_add(2)
    }

    /// The places of the block and the ring.
    fn places(&self) -> usize {
        self.row().saturating_mul(self.rows.saturating_add(2))
    }

    /// How many cells stand from the first of the block to its last, those of the ring in between with them.
    fn span(&self) -> usize {
        self.row().saturating_mul(self.rows).saturating_sub(2)
    }
}

/// A block of 126 by 47 cells.
pub fn demo_block(rounds: u64) -> Block {
    // Not known when the program is built, so that no loop is made for these numbers.
    let size = rounds.min(1) as usize;
    Block {
        columns: 126 * size,
        rows: 47 * size,
    }
}

/// What a formula is evaluated over and worked out in.
#[derive(Drop)]
pub struct Room {
    /// The fields of a block and its ring.
    fields: Vec<Field>,
    /// Room to work in.
    scratch: Vec<i64>,
    /// The values of the formula, from the first cell of the block to its last.
    these: Vec<i64>,
}

impl Room {
    /// Room for a formula over a block.
    pub fn new(
        alloc: Global,
        block: &Block,
        tree: &Formula,
        values: &[i64],
    ) -> Result<Room, AllocError>
        requires { length values.now ≡ 1029 }
    {
        Ok(Room {
            fields: fields(alloc, block, values)?,
            scratch: Vec::from_elem(alloc, 0, scratch_rows(tree).saturating_mul(STRIP))?,
            these: Vec::from_elem(alloc, 0, block.span())?,
        })
    }

    /// The sum over the cells of the block.
    pub fn sum(&self, block: &Block) -> i64 {
        block_sum(block, self.these.as_slice())
    }
}

/// How long so many sweeps take.
pub fn sweep_time(
    rt: &impl Clock,
    block: &Block,
    tree: &Formula,
    room: &mut Room,
    rounds: u64,
) -> io::Result<Duration>
    requires { IsTrue (is_over 6 tree.now) }
{
    let places = places(block);
    let start = Instant::now(rt)?;
    sweeps(
        tree,
        &places,
        room.fields.as_slice(),
        room.scratch.as_mut_slice(),
        room.these.as_mut_slice(),
        rounds,
    );
    start.elapsed(rt)
}

/// How long as many passes take of loops that are written out.
pub fn plain_time(
    rt: &impl Clock,
    block: &Block,
    room: &mut Room,
    rounds: u64,
) -> io::Result<Duration> {
    let start = Instant::now(rt)?;
    plain_sweeps(
        block,
        room.fields.as_slice(),
        room.these.as_mut_slice(),
        rounds,
    );
    start.elapsed(rt)
}

/// Two fields of a block and its ring, with the values of a table.
fn fields(alloc: Global, block: &Block, values: &[i64]) -> Result<Vec<Field>, AllocError>
    requires { length values.now ≡ 1029 }
{
    let mut fields = Vec::new(alloc);
    for shift in 0..2usize {
        let mut field = Field::new(alloc, block.places())?;
        spread(field.values_mut(), values, 500 * shift);
        fields.push(field)?;
    }
    Ok(fields)
}

/// Writes the values of a table over and over, from one of them on.
fn spread(these: &mut [i64], values: &[i64], shift: usize)
    requires values { length values.now ≡ 1029 }
    requires shift { shift < 1000 }
{
    for k in 0..these.len() {
        these[k] = values[(k + shift) % 1029];
    }
}

/// Where the six inputs of the formula come from.
fn places(block: &Block) -> [Place; 6] {
    let row = block.row().min(1_000) as u32;
    let first = row + 1;
    [
        Place::From { field: 0, first },
        Place::From {
            field: 0,
            first: first + 1,
        },
        Place::From {
            field: 0,
            first: first - 1,
        },
        Place::From {
            field: 0,
            first: first + row,
        },
        Place::From {
            field: 0,
            first: first - row,
        },
        Place::From { field: 1, first },
    ]
}

/// Whether all numbers are values.
fn are_values(numbers: &[i64]) -> bool
    ensures { IsTrue result → All IsValue numbers.now }
{
    numbers.iter().all(|number| (-MOST..=MOST).contains(number))
}

/// Whether all fields have values.
fn are_fields(fields: &[Field]) -> bool
    ensures { IsTrue result → All (All IsValue) fields.now }
{
    fields.iter().all(|field| are_values(field.values()))
}

/// Whether so many cells of an input lie within its field.
fn is_place(place: &Place, fields: &[Field], cells: usize) -> bool
    ensures { IsTrue result → IsPlace fields.now cells place.now }
{
    match place {
        Place::Same(number) => (-MOST..=MOST).contains(number),
        Place::From { field, first } => match fields.get(*field as usize) {
            Some(field) => {
                let length = field.values().len();
                cells <= length && *first as usize <= length - cells
            }
            None => false,
        },
    }
}

/// Whether so many cells of each input lie within its field.
fn are_places(places: &[Place], fields: &[Field], cells: usize) -> bool
    ensures { IsTrue result → All (IsPlace fields.now cells) places.now }
{
    places.iter().all(|place| is_place(place, fields, cells))
}

/// Sweeps a formula of six inputs so often, if its inputs reach over all cells.
fn sweeps(
    tree: &Formula,
    places: &[Place],
    fields: &[Field],
    scratch: &mut [i64],
    these: &mut [i64],
    rounds: u64,
)
    requires over { IsTrue (is_over 6 tree.now) }
    requires places { length places.now ≡ 6 }
{
    if scratch_rows(tree).saturating_mul(STRIP) > scratch.len() {
        return;
    }
    if !are_fields(fields) || !are_places(places, fields, these.len()) {
        return;
    }
    for _ in 0..rounds {
        sweep(tree, places, fields, scratch, these);
    }
}

/// The same by loops that are written out, with the numbers of the formula in the code.
fn plain_sweeps(block: &Block, fields: &[Field], these: &mut [i64], rounds: u64) {
    let (Some(flux), Some(temp)) = (fields.first(), fields.last()) else {
        return;
    };
    for _ in 0..rounds {
        plain_sweep(block, flux.values(), temp.values(), these);
    }
}

/// One pass over the block.
#[inline(never)]
fn plain_sweep(block: &Block, flux: &[i64], temp: &[i64], these: &mut [i64]) {
    let row = block.row();
    for j in 0..block.rows {
        let start = j.saturating_mul(row);
        let end = start.saturating_add(block.columns);
        let here = start.saturating_add(row).saturating_add(1);
        if end <= these.len() {
            write_row(
                cells(flux, here, block.columns),
                cells(flux, here.saturating_add(1), block.columns),
                cells(flux, here - 1, block.columns),
                cells(flux, here.saturating_add(row), block.columns),
                cells(flux, here - row, block.columns),
                cells(temp, here, block.columns),
                &mut these[start..end],
            );
        }
    }
}

/// So many numbers from a place on; none where there are fewer.
fn cells(values: &[i64], start: usize, count: usize) -> &[i64] {
    match values.get(start..start.saturating_add(count)) {
        Some(cells) => cells,
        None => &[],
    }
}

/// The values of the formula over a row.
fn write_row(
    center: &[i64],
    right: &[i64],
    left: &[i64],
    below: &[i64],
    above: &[i64],
    temp: &[i64],
    into: &mut [i64],
) {
    let count = into.len();
    let flux = center.len().min(right.len()).min(left.len());
    if flux.min(below.len()).min(above.len()).min(temp.len()) < count {
        return;
    }
    for k in 0..count {
        let around = plus(plus(plus(right[k], left[k]), below[k]), above[k]);
        let bend = less(around, center[k].wrapping_mul(4).clamp(-MOST, MOST));
        let next = plus(center[k], nearest(bend, 20));
        into[k] = less(next, nearest(temp[k], 100));
    }
}

/// A value by an even number that is known here and small, rounded to the nearest whole number: one division of a number
/// that is moved above 0.
#[inline(always)]
fn nearest(value: i64, by: u64) -> i64
    requires { 0 < by }
{
    let half = (by / 2).cast_signed();
    let moved = value.wrapping_add(half).wrapping_add(MOVED);
    (moved.cast_unsigned() / by)
        .cast_signed()
        .wrapping_sub((MOVED.cast_unsigned() / by).cast_signed())
}

/// The sum of two values.
#[inline(always)]
fn plus(a: i64, b: i64) -> i64
    ensures { IsValue result }
{
    a.wrapping_add(b).clamp(-MOST, MOST)
}

/// The difference of two values.
#[inline(always)]
fn less(a: i64, b: i64) -> i64
    ensures { IsValue result }
{
    a.wrapping_sub(b).clamp(-MOST, MOST)
}

/// The sum over the cells of the block.
fn block_sum(block: &Block, these: &[i64]) -> i64 {
    let mut sum = 0i64;
    for j in 0..block.rows {
        for value in cells(these, j.saturating_mul(block.row()), block.columns) {
            sum = sum.wrapping_add(*value);
        }
    }
    sum
}
