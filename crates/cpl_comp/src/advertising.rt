//! Reading what a component advertises.

ghost use Rattle.std.specs.Prelude.{◌≡◌, ◌∷◌, [], codes, length, IfOk, option_copied};
ghost use Rattle.std.specs.List.{list_all};
ghost use Rattle.cpl_base.specs.Gives.{Gives};
ghost use Rattle.cpl_base.specs.Words.{is_name};
ghost use Rattle.cpl_comp.specs.Advertised.{advertised_component, few_phases, phase_names_in};
ghost use Rattle.cpl_comp.specs.Parts.{advertisement_of};

use crate::advertised::{Advertised, Parts};
use crate::fault::CompFault;
use crate::field_rows::{copied_words, fields_in};
use crate::labels::own_values;
use crate::pets::{bounds_in, kind_in};
use cpl_base::{Many, Memory, Text, first_repeat, is_name};
use cpl_config::{Items, Row};
use cpl_dict::Dict;
use std::alloc::Global;

/// A component has at most so many phases.
const MOST_PHASES: usize = 16;

/// Reads what the component of this name advertises: its kind, its PETs, its fields and the names of its
/// phases. Time is linear in its rows.
///
/// `NAME_kind` is `model`, where it isn't given, or `mediator`. `NAME_petlist_bounds` has the first and the
/// last of its PETs, at most 63; without it the component lives on all. The tables `NAME_vars`, `NAME_import`
/// and `NAME_export` have a row for each field: `field = RULE`, `field standard units` and options, and
/// `field standard units = RULE`. The options of an import are `check=current`, `check=next` or `check=none`,
/// `optional` and `init`, each at most once. There are at most 64 fields. `NAME_phases` has the names of at
/// most 16 phases; without it there is one, `run`.
///
/// Errors: the first in this order. `BadValue` of the kind; `BadValue` or `PetOutOfRange` of the bounds; then
/// the rows of variables, imports and exports one after another, each with `BadValue`, `FieldTwice`,
/// `StandardUnknown` and `UnitsDiffer`, the last two by the dictionary; `TooManyFields`; `BadValue`,
/// `PhaseTwice` or `TooManyPhases` of the phases. `Memory` where memory runs out.
///
/// Source: NUOPC Layer Reference, advertised fields; labels and refusals are this project's own.
pub fn advertise(
    alloc: Global,
    items: &Items,
    name: &Text,
    dict: &Dict,
) -> Result<Advertised, CompFault>
    ensures answer { Gives CompFault.Memory (λ advertised. advertised) result (advertised_component items.now name.now dict.now) }
{
    let parts = read_parts(alloc, items, name.bytes(), dict)?;
    let _entries = items.entries();
    Ok(Advertised::new(parts))
}

/// What is read of a component.
#[tactic(auto, unfolding(crate::specs::Advertised::advertised_component))]
fn read_parts(alloc: Global, items: &Items, name: &[u8], dict: &Dict) -> Result<Parts, CompFault>
    ensures { Gives CompFault.Memory advertisement_of result (advertised_component items.now name.now dict.now) }
{
    let kind = own_values(alloc, items, name, b"_kind")?;
    let kind = kind_in(kind)?;
    let bounds = own_values(alloc, items, name, b"_petlist_bounds")?;
    let bounds = bounds_in(bounds)?;
    let fields = fields_in(alloc, dict, items, name)?;
    let phases = own_values(alloc, items, name, b"_phases")?;
    let phases = phase_names_in(alloc, phases)?;
    Ok(Parts {
        name: Text::of(alloc, name)?,
        kind,
        bounds,
        fields,
        phases,
    })
}

/// The names of a component's phases: one of the name `run`, where none are given.
fn phase_names_in(alloc: Global, row: Option<&Row>) -> Result<Many<Text>, CompFault>
    ensures { Gives CompFault.Memory (λ names. names) result (phase_names_in (option_copied row.entry)) }
{
    let Some(row) = row else {
        return Ok(run_alone(alloc)?);
    };
    let words = row.words.items();
    if words.is_empty() || !are_names(words) {
        return Err(CompFault::BadValue { line: row.line });
    }
    if first_repeat(alloc, words)?.is_some() {
        return Err(CompFault::PhaseTwice { line: row.line });
    }
    few_phases(words)?;
    Ok(copied_words(alloc, words)?)
}

/// The one name of a component's phases, where none are given.
fn run_alone(alloc: Global) -> Result<Many<Text>, Memory>
    ensures { IfOk result (λ names. names ≡ codes "run" ∷ []) }
{
    let mut names = Vec::new(alloc);
    names.push(Text::of(alloc, b"run")?)?;
    Ok(Many::of(names))
}

/// Whether all words are names.
fn are_names(words: &[Text]) -> bool
    ensures { result ≡ list_all is_name words.now }
{
    words.iter().all(|word| is_name(word.bytes()))
}

/// There aren't too many phases.
fn few_phases(names: &[Text]) -> Result<(), CompFault>
    ensures { result ≡ few_phases (length names.now) }
{
    if names.len() <= MOST_PHASES {
        Ok(())
    } else {
        Err(CompFault::TooManyPhases {
            count: names.len() as u64,
        })
    }
}
