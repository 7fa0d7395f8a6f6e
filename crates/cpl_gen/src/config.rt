//! The text of a configuration.

ghost use Rattle.std.specs.Prelude.{◌≡◌, ◌++◌, ◌∷◌, [], IfOk, OnOk};
ghost use Rattle.cpl_gen.specs.Config.{config_of, grid_line, text_of};

use crate::draws::{Numbers, numbers_of};
use crate::template::{ATMOSPHERE, DICTIONARY, FLUX, LAND, MEDIATOR, OCEAN, SEQUENCE};
use cpl_base::{Memory, write_number};
use std::alloc::Global;

/// A configuration of a mediator, an atmosphere, an ocean and a land on eight PETs, made from a seed: each seed gives
/// the size of the grid, how long the run is, and how fast the atmosphere's flux spreads.
///
/// Source: this project's own.
pub fn make_config(alloc: Global, seed: u64) -> Result<Vec<u8>, Memory>
    ensures { IfOk result (λ text. text.items ≡ config_of seed) }
{
    let numbers = numbers_of(seed);
    let mut text = Vec::new(alloc);
    text.extend_from_slice(DICTIONARY)?;
    write_grid(&mut text, b"MED", &numbers)?;
    text.extend_from_slice(MEDIATOR)?;
    write_grid(&mut text, b"ATM", &numbers)?;
    text.extend_from_slice(ATMOSPHERE)?;
    write_number(&mut text, numbers.hundredths as u128)?;
    text.extend_from_slice(FLUX)?;
    write_grid(&mut text, b"OCN", &numbers)?;
    text.extend_from_slice(OCEAN)?;
    write_grid(&mut text, b"LND", &numbers)?;
    text.extend_from_slice(LAND)?;
    write_number(&mut text, numbers.seconds as u128)?;
    text.extend_from_slice(SEQUENCE)?;
    Ok(text)
}

/// Appends the line of a component's grid.
fn write_grid(text: &mut Vec<u8>, component: &[u8], numbers: &Numbers) -> Result<(), Memory>
    ensures { OnOk result (text.new.items ≡ text.old.items ++ text_of (grid_line component.now numbers.now ∷ [])) }
{
    text.extend_from_slice(component)?;
    text.extend_from_slice(b"_grid: ")?;
    write_number(text, numbers.columns as u128)?;
    text.extend_from_slice(b" ")?;
    write_number(text, numbers.rows as u128)?;
    text.extend_from_slice(b" periodic\n")?;
    Ok(())
}
