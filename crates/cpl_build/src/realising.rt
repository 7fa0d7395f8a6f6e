//! The components of a file: all are advertised, and then all are realised.

ghost use Rattle.std.specs.Prelude.{◌≡◌, ◌≤◌, ◌<◌, ◌^◌, [], length, max, IfOk};
ghost use Rattle.std.specs.List.{All};
ghost use Rattle.std.specs.Option.{ForSome};
ghost use Rattle.cpl_base.specs.Gives.{Gives};
ghost use Rattle.cpl_build.specs.Outlines.{advertised_with, comp_values, components_in, pet_count, pets_asked, realised_with, value_total};
ghost use Rattle.cpl_build.specs.Refusals.{comp_refusal, refused_by};
ghost use Rattle.cpl_comp.specs.Advertised.{advertised_component};
ghost use Rattle.cpl_comp.specs.Components.{IsAskedOver, IsComponent, limits_of};
ghost use Rattle.cpl_comp.specs.Realised.{realised_component};

use crate::components::{Candidate, Components};
use crate::fault::Rejection;
use crate::refusals::{comp_refusal, too_many_values};
use cpl_base::{Many, Text};
use cpl_comp::{Comp, advertise, realise};
use cpl_config::Items;
use cpl_dict::Dict;
use cpl_formula::EntrySign;
use std::alloc::Global;

/// The components of a system have at most so many values.
const MOST_VALUES: u64 = 16_777_216;

/// The components of these names.
#[tactic(auto, unfolding(crate::specs::Outlines::components_in))]
pub(crate) fn components_in(
    alloc: Global,
    items: &Items,
    dict: &Dict,
    alarms: &[Text],
    signs: &[EntrySign],
    names: &[Text],
) -> Result<Components, Rejection>
    requires alarms { length alarms.now ≤ 64 }
    requires signs { length signs.now < 2 ^ 16 }
    requires names { length names.now ≤ 32 }
    ensures answer { Gives Rejection.Memory (λ found. found) result (components_in items.now dict.now alarms.now signs.now names.now) }
    ensures pets { IfOk result (λ found. (1 ≤ found.pets) × (found.pets ≤ 64)) }
    ensures count { IfOk result (λ found. length found.comps ≡ length names.now) }
    ensures each { IfOk result (λ found. All (IsComponent (limits_of found.pets alarms.now signs.now)) found.comps) }
    ensures values { IfOk result (λ found. value_total found.comps ≤ 2 ^ 24) }
{
    let candidates = advertised_in(alloc, items, dict, names)?;
    let pets = pet_count(candidates.as_slice());
    let comps = realised_in(alloc, items, pets, alarms, signs, candidates)?;
    let values = value_total(comps.as_slice());
    if values > MOST_VALUES {
        return Err(too_many_values(alloc, values));
    }
    Ok(Components {
        pets,
        comps: Many::of(comps),
    })
}

/// What the components of these names advertise.
fn advertised_in(
    alloc: Global,
    items: &Items,
    dict: &Dict,
    names: &[Text],
) -> Result<Vec<Candidate>, Rejection>
    ensures answer { Gives Rejection.Memory (λ found. found.items) result (advertised_with items.now dict.now [] names.now) }
    ensures count { IfOk result (λ found. length found.items ≡ length names.now) }
{
    let mut candidates = Vec::with_capacity(alloc, names.len())?;
    for name in names {
        let candidate = advertised_at(alloc, items, dict, name)?;
        candidates.push(candidate)?;
    }
    Ok(candidates)
}

/// What the component of a name advertises.
fn advertised_at(
    alloc: Global,
    items: &Items,
    dict: &Dict,
    name: &Text,
) -> Result<Candidate, Rejection>
    ensures answer { Gives Rejection.Memory (λ candidate. candidate.advertised) result (refused_by (comp_refusal name.now) (advertised_component items.now name.now dict.now)) }
    ensures name { IfOk result (λ candidate. candidate.name ≡ name.now) }
{
    match advertise(alloc, items, name, dict) {
        Ok(advertised) => Ok(Candidate {
            name: name.copy(alloc)?,
            advertised,
        }),
        Err(fault) => Err(comp_refusal(alloc, name.bytes(), fault)),
    }
}

/// How many PETs there are: as many as the component that asks for most, at least one.
fn pet_count(candidates: &[Candidate]) -> u8
    ensures value { result ≡ pet_count candidates.now }
    ensures some { 1 ≤ result }
    ensures few { result ≤ 64 }
    ensures above { All (λ candidate. ForSome candidate.advertised.bounds (λ bounds. bounds.1 < result)) candidates.now }
{
    let mut pets = 1;
    for candidate in candidates {
        pets = greater(pets, pets_asked(candidate));
    }
    pets
}

/// The greater of two numbers.
fn greater(a: u8, b: u8) -> u8
    ensures { result ≡ max a b }
{
    if a < b { b } else { a }
}

/// How many PETs a component asks for.
fn pets_asked(candidate: &Candidate) -> u8
    ensures value { result ≡ pets_asked candidate.now }
    ensures few { result ≤ 64 }
{
    match candidate.advertised.last_pet() {
        Some(last) => last + 1,
        None => 1,
    }
}

/// The components of these candidates, over so many PETs.
fn realised_in(
    alloc: Global,
    items: &Items,
    pets: u8,
    alarms: &[Text],
    signs: &[EntrySign],
    candidates: Vec<Candidate>,
) -> Result<Vec<Comp>, Rejection>
    requires { All (λ candidate. IsAskedOver candidate.advertised pets (length alarms.now) (length signs.now)) candidates.items }
    ensures answer { Gives Rejection.Memory (λ comps. comps.items) result (realised_with items.now pets alarms.now signs.now [] candidates.items) }
    ensures count { IfOk result (λ comps. length comps.items ≡ length candidates.items) }
    ensures each { IfOk result (λ comps. All (IsComponent (limits_of pets alarms.now signs.now)) comps.items) }
{
    let mut comps = Vec::with_capacity(alloc, candidates.len())?;
    for candidate in candidates {
        let comp = realised_at(alloc, items, pets, alarms, signs, candidate)?;
        comps.push(comp)?;
    }
    Ok(comps)
}

/// The component of a candidate, over so many PETs.
fn realised_at(
    alloc: Global,
    items: &Items,
    pets: u8,
    alarms: &[Text],
    signs: &[EntrySign],
    candidate: Candidate,
) -> Result<Comp, Rejection>
    requires { IsAskedOver candidate.advertised pets (length alarms.now) (length signs.now) }
    ensures answer { Gives Rejection.Memory (λ comp. comp) result (refused_by (comp_refusal candidate.name) (realised_component items.now candidate.advertised pets alarms.now signs.now)) }
    ensures component { IfOk result (IsComponent (limits_of pets alarms.now signs.now)) }
{
    let Candidate { name, advertised } = candidate;
    match realise(alloc, advertised, items, pets, alarms, signs) {
        Ok(realised) => Ok(realised.into_comp()),
        Err(fault) => Err(comp_refusal(alloc, name.bytes(), fault)),
    }
}

/// How many values all fields of components have.
fn value_total(comps: &[Comp]) -> u64
    requires few { length comps.now ≤ 32 }
    requires each { All (λ comp. comp_values comp ≤ 2 ^ 26) comps.now }
    ensures { result ≡ value_total comps.now }
{
    let mut total = 0;
    for comp in comps {
        total += comp_values(comp);
    }
    total
}

/// How many values the fields of a component have.
fn comp_values(comp: &Comp) -> u64
    requires { comp_values comp.now ≤ 2 ^ 26 }
    ensures { result ≡ comp_values comp.now }
{
    comp.fields.items().len() as u64 * u64::from(comp.decomp.grid().cells())
}
