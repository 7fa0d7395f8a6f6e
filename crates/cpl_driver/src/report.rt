//! The texts that a command writes.

ghost use Rattle.std.specs.Prelude.{◌≡◌, ◌++◌, IfOk, OnOk, [], ◌∷◌};
ghost use Rattle.cpl_base.specs.Numerals.{value_text};
ghost use Rattle.cpl_driver.specs.Endings.{ending_text};
ghost use Rattle.cpl_driver.specs.Answers.{component_line, operations_line, read_fault_line, too_long_line, variable_line};

use crate::running::Ending;
use crate::system::System;
use cpl_base::{Memory, write_number, write_val};
use std::alloc::Global;

/// The usage line.
pub const USAGE: &[u8] =
    b"usage: esmcouple run CONF [--workers N] [--trace] | serial CONF [--trace] | check CONF | plan CONF | demo SEED [--workers N]\n";

/// The refusal of a file whose form isn't built yet.
pub const NOT_YET_BUILT: &[u8] = b"refused 62 NotYetBuilt 1\n";

/// A line of a name between two texts.
fn named(alloc: Global, before: &[u8], name: &[u8]) -> Result<Vec<u8>, Memory>
    ensures { IfOk result (λ line. line.items ≡ before.now ++ name.now ++ (10 ∷ [])) }
{
    let mut line = Vec::from_slice(alloc, before)?;
    line.extend_from_slice(name)?;
    line.push(b'\n')?;
    Ok(line)
}

/// The line on a file that couldn't be read.
pub fn read_fault(alloc: Global, name: &str) -> Result<Vec<u8>, Memory>
    ensures { IfOk result (λ line. line.items ≡ read_fault_line name.now) }
{
    named(alloc, b"read fault ", name.as_bytes())
}

/// The refusal of a file that is longer than the limit.
pub fn too_long(alloc: Global, name: &str) -> Result<Vec<u8>, Memory>
    ensures { IfOk result (λ line. line.items ≡ too_long_line name.now) }
{
    named(alloc, b"refused 1 TooLong ", name.as_bytes())
}

/// Appends the line on the number of operations.
fn write_operations(out: &mut Vec<u8>, count: u64) -> Result<(), Memory>
    ensures { OnOk result (out.new.items ≡ out.old.items ++ operations_line count) }
{
    out.extend_from_slice(b"operations ")?;
    write_number(out, u128::from(count))?;
    out.push(b'\n')?;
    Ok(())
}

/// Appends the line on a component.
fn write_component(out: &mut Vec<u8>, name: &[u8], runs: u64, clock: u64) -> Result<(), Memory>
    ensures { OnOk result (out.new.items ≡ out.old.items ++ component_line name.now runs clock) }
{
    out.extend_from_slice(b"component ")?;
    out.extend_from_slice(name)?;
    out.extend_from_slice(b" runs ")?;
    write_number(out, u128::from(runs))?;
    out.extend_from_slice(b" clock ")?;
    write_number(out, u128::from(clock))?;
    out.push(b'\n')?;
    Ok(())
}

/// Appends a label and a value.
fn write_labelled(out: &mut Vec<u8>, label: &[u8], value: i128) -> Result<(), Memory>
    ensures { OnOk result (out.new.items ≡ out.old.items ++ (label.now ++ value_text value)) }
{
    out.extend_from_slice(label)?;
    write_val(out, value)
}

/// Appends the line on a variable that has one cell.
fn write_variable(out: &mut Vec<u8>, name: &[u8], value: i64) -> Result<(), Memory>
    ensures { OnOk result (out.new.items ≡ out.old.items ++ variable_line name.now (value ∷ [])) }
{
    let value = i128::from(value);
    out.extend_from_slice(b"var ")?;
    out.extend_from_slice(name)?;
    write_labelled(out, b" min ", value)?;
    write_labelled(out, b" max ", value)?;
    write_labelled(out, b" sum ", value)?;
    out.push(b'\n')?;
    Ok(())
}

/// The report of a run: what it left.
#[tactic(auto, unfolding(crate::specs::Answers::report))]
pub fn report(alloc: Global, system: &System, ending: &Ending) -> Result<Vec<u8>, Memory>
    ensures { IfOk result (λ text. text.items ≡ ending_text system.now ending.now) }
{
    let mut text = Vec::new(alloc);
    write_operations(&mut text, ending.operations)?;
    write_component(
        &mut text,
        system.component.bytes(),
        ending.runs,
        ending.clock,
    )?;
    write_variable(&mut text, system.field.bytes(), ending.value)?;
    text.extend_from_slice(b"end ok\n")?;
    Ok(text)
}
