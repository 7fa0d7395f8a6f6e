//! Components of a file, read over so many PETs, without alarms and entries.

ghost use Rattle.std.specs.Prelude.{◌≤◌, [], IfOk};
ghost use Rattle.std.specs.List.{All};
ghost use Rattle.cpl_comp.specs.Components.{IsComponent};

use cpl_base::{Memory, Text};
use cpl_comp::{Advertised, Comp, advertise, realise};
use cpl_config::{Items, Row, read_items};
use cpl_dict::Dict;
use cpl_text::lines;
use std::alloc::Global;
use std::test::Fail;

/// No file of these tests is longer.
const LONGEST: usize = 4_194_304;

/// The items of a file.
pub fn items_of(alloc: Global, file: &[u8]) -> Result<Items, Fail> {
    if file.len() > LONGEST {
        return Err(Fail::from(Memory));
    }
    let lines = lines(alloc, file)?;
    Ok(read_items(alloc, file, lines.as_slice())?)
}

/// The rows of a table, none where it isn't there.
pub fn rows_of<'a>(items: &'a Items, label: &[u8]) -> &'a [Row] {
    items.table(label).unwrap_or(&[])
}

/// The dictionary of a file, which has no synonyms.
pub fn dict_of(alloc: Global, items: &Items) -> Result<Dict, Fail> {
    let mut dict = Dict::new(alloc);
    for row in rows_of(items, b"dictionary") {
        add_row(alloc, &mut dict, row.words.items())?;
    }
    Ok(dict)
}

/// Adds a row of a dictionary.
fn add_row(alloc: Global, dict: &mut Dict, words: &[Text]) -> Result<(), Fail> {
    if let [name, units] = words {
        dict.add(name.copy(alloc)?, units.copy(alloc)?)?;
    }
    Ok(())
}

/// The names of a file's components.
fn names_in(items: &Items) -> &[Text] {
    match items.value(b"EARTH_component_list") {
        Some(row) => row.words.items(),
        None => &[],
    }
}

/// The components of a file.
pub fn comps_of(alloc: Global, items: &Items, dict: &Dict, pets: u8) -> Result<Vec<Comp>, Fail>
    requires some { 1 ≤ pets }
    requires few { pets ≤ 64 }
    ensures { IfOk result (λ comps. All (IsComponent (record { pets = pets; alarms = 0; inputs = [] })) comps.items) }
{
    let mut comps = Vec::new(alloc);
    for name in names_in(items) {
        let advertised = advertise(alloc, items, name, dict)?;
        let comp = comp_of(alloc, advertised, items, pets)?;
        comps.push(comp)?;
    }
    Ok(comps)
}

/// The component of an advertisement.
fn comp_of(alloc: Global, advertised: Advertised, items: &Items, pets: u8) -> Result<Comp, Fail>
    requires some { 1 ≤ pets }
    requires few { pets ≤ 64 }
    ensures { IfOk result (IsComponent (record { pets = pets; alarms = 0; inputs = [] })) }
{
    let above = match advertised.last_pet() {
        Some(last) => last < pets,
        None => true,
    };
    if !above {
        return Err(Fail::from(Memory));
    }
    let realised = realise(alloc, advertised, items, pets, &[], &[])?;
    Ok(realised.into_comp())
}
