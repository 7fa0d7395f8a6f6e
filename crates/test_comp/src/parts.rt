//! A component in print, part by part: what it is, its PETs, its grid and the part of each PET, its substep, its
//! fields with their start rules, its phases and what is read beside the cell.

ghost use Rattle.std.specs.Prelude.{◌≡◌, IsTrue};
ghost use Rattle.std.specs.List.{All};
ghost use Rattle.cpl_base.specs.Numbers.{IsValue};
ghost use Rattle.cpl_formula.specs.Tree.{is_over};

use cpl_base::Text;
use cpl_comp::{Argument, Comp, Field, Halo, MergeRow, Phase, Rule, SetRow};
use cpl_formula::{Formula, Parsed, Read, value};
use cpl_grid::{Block, Decomp};
use std::alloc::Global;
use std::fmt::Debug;
use std::test::Fail;

/// The values at which formulas are shown: of the first read, of the second and so on.
const INPUTS: [i64; 4] = [1_000_000, 10_000_000, 100_000_000, 1_000_000_000];

/// A value is at most so great, in millionths.
const GREATEST: u64 = 1_000_000_000_000_000;

/// Appends a blank and then a value, as it is shown to programmers.
fn put(out: &mut Vec<u8>, alloc: Global, shown: &impl Debug) -> Result<(), Fail> {
    let text = format!(in alloc; " {shown:?}")?;
    Ok(out.extend_from_slice(text.as_bytes())?)
}

/// Appends a blank and then a text in brackets.
fn put_text(out: &mut Vec<u8>, text: &Text) -> Result<(), Fail> {
    out.extend_from_slice(b" [")?;
    out.extend_from_slice(text.bytes())?;
    Ok(out.push(b']')?)
}

/// Begins a line with a word.
fn begin(out: &mut Vec<u8>, word: &[u8]) -> Result<(), Fail> {
    out.push(b'\n')?;
    Ok(out.extend_from_slice(word)?)
}

/// Appends what is read, and at which neighbour.
fn put_read(out: &mut Vec<u8>, alloc: Global, read: &Read) -> Result<(), Fail> {
    put(out, alloc, &read.name)?;
    if read.dx != 0 || read.dy != 0 {
        put(out, alloc, &(read.dx, read.dy))?;
    }
    Ok(())
}

/// Whether a number is a value.
fn is_value(number: i64) -> bool
    ensures { IsTrue result → IsValue number }
{
    number.unsigned_abs() <= GREATEST
}

/// Whether all inputs of a formula are among so many, and all its numbers are values.
fn is_over(count: usize, tree: &Formula) -> bool
    ensures { result ≡ is_over count tree.now }
{
    match tree {
        Formula::Number(number) => number.unsigned_abs() <= GREATEST,
        Formula::Input(place) => (*place as usize) < count,
        Formula::Minus(a) | Formula::Abs(a) => is_over(count, a.get()),
        Formula::Plus(a, b)
        | Formula::Less(a, b)
        | Formula::Times(a, b)
        | Formula::Over(a, b)
        | Formula::Min(a, b)
        | Formula::Max(a, b) => is_over(count, a.get()) && is_over(count, b.get()),
        Formula::Select(condition, a, b) => {
            is_over(count, condition.get()) && (is_over(count, a.get()) && is_over(count, b.get()))
        }
    }
}

/// Whether these are values.
fn are_values(inputs: &[i64]) -> bool
    ensures { IsTrue result → All IsValue inputs.now }
{
    inputs.iter().all(|input| is_value(*input))
}

/// The value of a formula at the first of the inputs, one for each of its reads.
fn worth(parsed: &Parsed) -> Option<i64> {
    let inputs = INPUTS.get(..parsed.reads.items().len())?;
    if are_values(inputs) && is_over(inputs.len(), &parsed.tree) {
        Some(value(&parsed.tree, inputs))
    } else {
        None
    }
}

/// Appends an argument.
fn put_argument(out: &mut Vec<u8>, alloc: Global, argument: &Argument) -> Result<(), Fail> {
    match argument {
        Argument::Number(number) => put(out, alloc, number),
        Argument::Cell(read) => put_read(out, alloc, read),
    }
}

/// Appends a rule: what a formula reads and is worth, or the entry and the arguments of a call.
fn put_rule(out: &mut Vec<u8>, alloc: Global, rule: &Rule) -> Result<(), Fail> {
    match rule {
        Rule::Plain(parsed) => {
            out.extend_from_slice(b" formula")?;
            for read in parsed.get().reads.items() {
                put_read(out, alloc, read)?;
            }
            out.extend_from_slice(b" worth")?;
            put(out, alloc, &worth(parsed.get()))?;
        }
        Rule::Native { entry, reads } => {
            out.extend_from_slice(b" call")?;
            put(out, alloc, entry)?;
            for argument in reads.items() {
                put_argument(out, alloc, argument)?;
            }
        }
    }
    Ok(())
}

/// Appends a field.
fn put_field(out: &mut Vec<u8>, alloc: Global, field: &Field) -> Result<(), Fail> {
    begin(out, b"field")?;
    put_text(out, &field.name)?;
    put(out, alloc, &field.role)?;
    put_text(out, &field.standard)?;
    put_text(out, &field.units)?;
    put(out, alloc, &field.wanted)?;
    put(out, alloc, &(field.optional, field.at_init, field.line))?;
    match &field.start {
        Some(rule) => put_rule(out, alloc, rule),
        None => Ok(()),
    }
}

/// Appends the rules of fields.
fn put_sets(out: &mut Vec<u8>, alloc: Global, word: &[u8], rows: &[SetRow]) -> Result<(), Fail> {
    for row in rows {
        begin(out, word)?;
        put(out, alloc, &row.field)?;
        put_rule(out, alloc, &row.rule)?;
    }
    Ok(())
}

/// Appends a sum of products.
fn put_merge(out: &mut Vec<u8>, alloc: Global, row: &MergeRow) -> Result<(), Fail> {
    begin(out, b"merge")?;
    put(out, alloc, &row.field)?;
    for term in row.terms.items() {
        put(out, alloc, term)?;
    }
    Ok(())
}

/// Appends what is read beside the cell.
fn put_halo(out: &mut Vec<u8>, alloc: Global, halo: &Halo) -> Result<(), Fail> {
    begin(out, b"beside")?;
    for offset in halo.offsets.items() {
        put(out, alloc, offset)?;
    }
    out.extend_from_slice(b" of")?;
    for field in halo.fields.items() {
        put(out, alloc, field)?;
    }
    Ok(())
}

/// Appends what a phase does.
fn put_phase(out: &mut Vec<u8>, alloc: Global, phase: &Phase) -> Result<(), Fail> {
    begin(out, b"phase")?;
    put_text(out, &phase.label)?;
    put_sets(out, alloc, b"set", phase.sets.items())?;
    for row in phase.merges.items() {
        put_merge(out, alloc, row)?;
    }
    put_sets(out, alloc, b"add", phase.adds.items())?;
    for field in phase.averages.items() {
        begin(out, b"average")?;
        put(out, alloc, field)?;
    }
    for row in phase.ranges.items() {
        begin(out, b"range")?;
        put(out, alloc, &(row.field, row.low, row.high))?;
    }
    put_halo(out, alloc, &phase.halo)
}

/// Appends where a block begins and how long it is.
fn put_block(out: &mut Vec<u8>, alloc: Global, block: Block) -> Result<(), Fail> {
    put(out, alloc, &(block.start, block.length))
}

/// Appends a grid, and the columns and rows of each PET.
fn put_layout(out: &mut Vec<u8>, alloc: Global, decomp: &Decomp) -> Result<(), Fail> {
    let grid = decomp.grid();
    begin(out, b"grid")?;
    put(out, alloc, &(grid.nx, grid.ny, grid.periodic))?;
    let first = decomp.first_pet();
    for place in 0..decomp.pets() {
        let part = decomp.part(first + place);
        begin(out, b"part")?;
        put_block(out, alloc, part.columns)?;
        put_block(out, alloc, part.rows)?;
    }
    Ok(())
}

/// Appends a component, a line for each of its parts.
pub fn put_component(out: &mut Vec<u8>, alloc: Global, comp: &Comp) -> Result<(), Fail> {
    begin(out, b"component")?;
    put_text(out, &comp.name)?;
    put(out, alloc, &comp.kind)?;
    put(out, alloc, &(comp.first_pet, comp.pets))?;
    put_layout(out, alloc, &comp.decomp)?;
    begin(out, b"substep")?;
    put(out, alloc, &comp.substep)?;
    for field in comp.fields.items() {
        put_field(out, alloc, field)?;
    }
    put_halo(out, alloc, &comp.start_halo)?;
    for phase in comp.phases.items() {
        put_phase(out, alloc, phase)?;
    }
    Ok(())
}
