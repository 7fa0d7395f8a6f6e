//! Reading all components of a file: each advertises, and then each is realised over all PETs.

use cpl_base::{Many, Memory, Text};
use cpl_comp::{Advertised, CompFault, Realised, advertise, realise};
use cpl_config::{Items, Row, read_items};
use cpl_dict::Dict;
use cpl_formula::EntrySign;
use cpl_text::lines;
use std::alloc::{AllocFailed, Global};
use std::test::Fail;

/// No file of these tests is longer.
const LONGEST: usize = 4_194_304;

/// The first component that isn't accepted, by its place in the list, and why.
#[derive(Debug, Drop)]
pub struct Refused {
    pub place: usize,
    pub fault: CompFault,
}

impl<T: Drop> From<AllocFailed<T>> for Refused {
    fn from(_failed: AllocFailed<T>) -> Refused {
        let fault = CompFault::Memory;
        Refused { place: 0, fault }
    }
}

/// What components are read over.
#[derive(Drop)]
pub struct Setting {
    pub items: Items,
    pub dict: Dict,
    pub alarms: Many<Text>,
    pub signs: Many<EntrySign>,
}

/// The items of a file.
fn items_of(alloc: Global, file: &[u8]) -> Result<Items, Fail> {
    if file.len() > LONGEST {
        return Err(Fail::from(Memory));
    }
    let lines = lines(alloc, file)?;
    Ok(read_items(alloc, file, lines.as_slice())?)
}

/// Adds a row of a file's dictionary.
fn add_row(alloc: Global, dict: &mut Dict, words: &[Text]) -> Result<(), Fail> {
    match words {
        [word, names @ ..] if word.bytes() == b"synonym".as_slice() => dict.synonym(names)?,
        [name, units] => dict.add(name.copy(alloc)?, units.copy(alloc)?)?,
        _ => {}
    }
    Ok(())
}

/// The rows of a table, none where it isn't there.
fn rows_of<'a>(items: &'a Items, label: &[u8]) -> &'a [Row] {
    items.table(label).unwrap_or(&[])
}

/// The dictionary of a file.
fn dict_of(alloc: Global, items: &Items) -> Result<Dict, Fail> {
    let mut dict = Dict::new(alloc);
    for row in rows_of(items, b"dictionary") {
        add_row(alloc, &mut dict, row.words.items())?;
    }
    Ok(dict)
}

/// The names of a file's alarms.
fn alarms_of(alloc: Global, items: &Items) -> Result<Many<Text>, Fail> {
    let mut names = Vec::new(alloc);
    for row in rows_of(items, b"alarms") {
        if let Some(name) = row.words.items().first() {
            names.push(name.copy(alloc)?)?;
        }
    }
    Ok(Many::of(names))
}

/// The entries `relax` of three inputs, `diffuse` of six and `flux` of three.
fn signs(alloc: Global) -> Result<Many<EntrySign>, Fail> {
    let mut signs = Vec::new(alloc);
    let entries: [(&[u8], u8); 3] = [(b"relax", 3), (b"diffuse", 6), (b"flux", 3)];
    for (label, inputs) in entries {
        let label = Text::of(alloc, label)?;
        signs.push(EntrySign { label, inputs })?;
    }
    Ok(Many::of(signs))
}

/// What the components of a file are read over.
pub fn setting_of(alloc: Global, file: &[u8]) -> Result<Setting, Fail> {
    let items = items_of(alloc, file)?;
    Ok(Setting {
        dict: dict_of(alloc, &items)?,
        alarms: alarms_of(alloc, &items)?,
        signs: signs(alloc)?,
        items,
    })
}

/// The names of a file's components.
pub fn names_in(items: &Items) -> &[Text] {
    match items.value(b"EARTH_component_list") {
        Some(row) => row.words.items(),
        None => &[],
    }
}

/// What the components of a file advertise, in the order of their list.
fn advertised(alloc: Global, setting: &Setting) -> Result<Vec<Advertised>, Refused> {
    let mut list = Vec::new(alloc);
    for (place, name) in names_in(&setting.items).iter().enumerate() {
        match advertise(alloc, &setting.items, name, &setting.dict) {
            Ok(one) => list.push(one)?,
            Err(fault) => return Err(Refused { place, fault }),
        }
    }
    Ok(list)
}

/// How many PETs there are: one more than the last one that a component names.
fn pet_count(list: &[Advertised]) -> u8 {
    let mut pets = 1u8;
    for one in list {
        if let Some(last) = one.last_pet() {
            pets = pets.max(last + 1);
        }
    }
    pets
}

/// Realises a component, where what is asked of it holds.
fn realised_one(
    alloc: Global,
    one: Advertised,
    setting: &Setting,
    pets: u8,
) -> Result<Realised, CompFault> {
    let alarms = setting.alarms.items();
    let signs = setting.signs.items();
    let above = match one.last_pet() {
        Some(last) => last < pets,
        None => true,
    };
    if !(above && 1 <= pets && pets <= 64 && alarms.len() <= 64 && signs.len() <= 3) {
        return Err(CompFault::Memory);
    }
    realise(alloc, one, &setting.items, pets, alarms, signs)
}

/// The components of a file, read to their last rules.
pub fn components(alloc: Global, setting: &Setting) -> Result<Vec<Realised>, Refused> {
    let mut list = Vec::new(alloc);
    let advertised = advertised(alloc, setting)?;
    let pets = pet_count(advertised.as_slice());
    for (place, one) in advertised.into_iter().enumerate() {
        match realised_one(alloc, one, setting, pets) {
            Ok(component) => list.push(component)?,
            Err(fault) => return Err(Refused { place, fault }),
        }
    }
    Ok(list)
}
