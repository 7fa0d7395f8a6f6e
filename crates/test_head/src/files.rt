//! The items of a file, and tables of files with the answers that they must have.

use cpl_base::Memory;
use cpl_config::{Items, read_items};
use cpl_text::lines;
use std::alloc::Global;
use std::test::Fail;

/// No file of these tests is longer.
const LONGEST: usize = 16_777_216;

/// Files, each with its answer.
pub type Files = &'static [(&'static [u8], &'static [u8])];

/// The items of a file.
pub fn items_of(alloc: Global, file: &[u8]) -> Result<Items, Fail> {
    if file.len() > LONGEST {
        return Err(Fail::from(Memory));
    }
    let lines = lines(alloc, file)?;
    Ok(read_items(alloc, file, lines.as_slice())?)
}
