//! The parts of all PETs of a decomposed grid, taken once.

ghost use Rattle.std.specs.Prelude.{◌≡◌, ◌+◌, ◌-◌, ◌<◌, length, slice_index_or};
ghost use Rattle.cpl_grid.specs.Owners.{IsDivision, IsLayout, IsPartOf, IsPet, part_of};
ghost use Rattle.cpl_route.specs.Kept.{HasParts};
ghost use Rattle.cpl_route.specs.Routes.{pets_of};

use cpl_grid::{Block, Decomp, Part, decomposition_laws};

/// A PET is at most this.
const PETS: usize = 64;

/// No columns and no rows.
const EMPTY: Block = Block {
    start: 0,
    length: 0,
};

/// The part of each PET of a decomposed grid, so that no pair of PETs costs a division.
#[derive(Drop)]
pub(crate) struct Parts {
    /// The part of the k-th PET, from 0.
    pub list: [Part; 64],
}

/// The parts of all PETs.
pub(crate) fn parts_of(decomp: &Decomp) -> Parts
    ensures { HasParts decomp.now result }
{
    let mut list = [Part {
        columns: EMPTY,
        rows: EMPTY,
    }; PETS];
    let first = decomp.first_pet();
    for k in 0..decomp.pets() {
        list[usize::from(k)] = decomp.part(first + k);
    }
    Parts { list }
}

impl Parts {
    /// The part of a PET of the decomposed grid that these are the parts of.
    pub(crate) fn part(&self, decomp: &Decomp, pet: u8) -> Part
        requires parts { HasParts decomp.now self.now }
        requires pet { IsPet decomp.now pet }
        ensures value { result ≡ part_of decomp.now pet }
        ensures is_part { IsPartOf decomp.now pet result }
        ensures division { IsDivision decomp.now }
        ensures layout { IsLayout decomp.now }
    {
        decomposition_laws(decomp);
        self.list[usize::from(pet - decomp.first_pet())]
    }
}

/// How many PETs own cells of a decomposed grid.
pub(crate) fn pet_count(decomp: &Decomp) -> usize
    ensures { result ≡ length (pets_of decomp.now) }
{
    usize::from(decomp.pets())
}

/// The PET at a place among those that own cells of a decomposed grid.
pub(crate) fn pet_at(decomp: &Decomp, place: usize) -> u8
    requires { place < length (pets_of decomp.now) }
    ensures value { result ≡ slice_index_or (pets_of decomp.now) place 0 }
    ensures pet { IsPet decomp.now result }
{
    let _ = decomp.pets();
    decomp.first_pet() + place as u8
}
