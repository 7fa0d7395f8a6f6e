//! What PETs send each other in a redistribution.

ghost use Rattle.std.specs.Prelude.{◌≡◌, ◌<◌, length, slice_index_or};
ghost use Rattle.cpl_grid.specs.Grid.{cells_in};
ghost use Rattle.cpl_route.specs.Kept.{IsOwned, IsRedist};
ghost use Rattle.cpl_route.specs.Routes.{is_owned, pets_of};

use crate::owned::Owned;
use crate::parts::{Parts, parts_of, pet_at, pet_count};
use crate::table::Sharing;
use crate::walk::{count_cells, push_cells};
use cpl_base::Memory;
use cpl_grid::Decomp;

/// A redistribution between two decomposed grids of equal numbers of cells: each cell goes from its owner to its owner.
#[derive(Drop)]
pub(crate) struct Redist<'a> {
    /// Who owns the cells before.
    pub src: &'a Decomp,
    /// Who owns them after.
    pub dst: &'a Decomp,
    /// The parts of the PETs of the one.
    pub owners: Parts,
    /// The parts of the PETs of the other.
    pub receivers: Parts,
}

/// The redistribution between two decomposed grids.
pub(crate) fn redist_between<'a>(src: &'a Decomp, dst: &'a Decomp) -> Redist<'a>
    requires { cells_in src.now.grid ≡ cells_in dst.now.grid }
    ensures sound { IsRedist result.src.now result.dst.now result.owners result.receivers }
    ensures src { result.src.now ≡ src.now }
    ensures dst { result.dst.now ≡ dst.now }
{
    Redist {
        src,
        dst,
        owners: parts_of(src),
        receivers: parts_of(dst),
    }
}

impl Redist<'_> {
    /// What the PET at a place among those of the grid after needs.
    fn needs(&self, place: usize) -> Owned<'_>
        requires sound { IsRedist self.now.src.now self.now.dst.now self.now.owners self.now.receivers }
        requires place { place < length (pets_of self.now.dst.now) }
        ensures sound { IsOwned result.dst.now result.to result.part result.grid }
        ensures dst { result.dst.now ≡ self.now.dst.now }
        ensures to { result.to ≡ slice_index_or (pets_of self.now.dst.now) place 0 }
        ensures grid { result.grid ≡ self.now.src.now.grid }
    {
        let to = pet_at(self.dst, place);
        Owned {
            dst: self.dst,
            to,
            part: self.receivers.part(self.dst, to),
            grid: self.src.grid(),
        }
    }
}

impl Sharing for Redist<'_> {
    ghost src = { λ redist. redist.src.now };

    ghost is_needed = { λ redist. is_owned redist.dst.now };

    ghost receivers = { λ redist. pets_of redist.dst.now };

    ghost is_sound = { λ redist. IsRedist redist.src.now redist.dst.now redist.owners redist.receivers };

    fn senders(&self) -> (u8, u8) {
        (self.src.first_pet(), self.src.pets())
    }

    fn receiver_count(&self) -> usize {
        pet_count(self.dst)
    }

    fn receiver(&self, place: usize) -> u8 {
        pet_at(self.dst, place)
    }

    fn push(&self, from: u8, place: usize, out: &mut Vec<u32>) -> Result<(), Memory> {
        let needs = self.needs(place);
        push_cells(&needs, needs.grid.nx, self.owners.part(self.src, from), out)?;
        Ok(())
    }

    fn count(&self, from: u8, place: usize) -> u32 {
        let needs = self.needs(place);
        count_cells(&needs, needs.grid.nx, self.owners.part(self.src, from))
    }
}
