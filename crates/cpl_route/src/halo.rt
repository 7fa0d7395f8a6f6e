//! What PETs send each other for a halo.

ghost use Rattle.std.specs.Prelude.{◌≡◌, ◌+◌, ◌-◌, ◌<◌};
ghost use Rattle.cpl_grid.specs.Owners.{IsPet};
ghost use Rattle.cpl_route.specs.Halos.{HasPairs, IsPairOf};
ghost use Rattle.cpl_route.specs.Routes.{AreOffsets, is_halo, pets_of};

use crate::halo_pair::HaloPair;
use crate::parts::{pet_at, pet_count};
use crate::table::Sharing;
use crate::walk::{count_cells, push_cells};
use cpl_base::Memory;
use cpl_grid::Decomp;

/// The halo of a decomposed grid: each PET gets the neighbours of its cells from their owners.
#[derive(Drop)]
pub(crate) struct Halo<'a> {
    /// Who owns the cells.
    pub decomp: &'a Decomp,
    /// Where the neighbours of a cell lie.
    pub offsets: &'a [(i8, i8)],
    /// What the k-th PET needs.
    pub pairs: [HaloPair<'a>; 64],
}

/// The halo of a decomposed grid with these offsets, which are from -2 to 2.
pub(crate) fn halo_of<'a>(decomp: &'a Decomp, offsets: &'a [(i8, i8)]) -> Halo<'a>
    requires { AreOffsets offsets.now }
    ensures sound { HasPairs result.decomp.now result.offsets.now result.pairs }
    ensures decomp { result.decomp.now ≡ decomp.now }
    ensures offsets { result.offsets.now ≡ offsets.now }
{
    let first = decomp.first_pet();
    let mut pairs = [HaloPair::new(decomp, offsets, first); 64];
    for k in 0..decomp.pets() {
        pairs[usize::from(k)] = HaloPair::new(decomp, offsets, first + k);
    }
    Halo {
        decomp,
        offsets,
        pairs,
    }
}

impl Halo<'_> {
    /// What is kept of a PET.
    fn pair(&self, pet: u8) -> &HaloPair<'_>
        requires sound { HasPairs self.now.decomp.now self.now.offsets.now self.now.pairs }
        requires pet { IsPet self.now.decomp.now pet }
        ensures { IsPairOf self.now.decomp.now self.now.offsets.now pet result.now }
    {
        let pairs = &self.pairs[..];
        let pair = &pairs[usize::from(pet - self.decomp.first_pet())];
        pair
    }
}

impl Sharing for Halo<'_> {
    ghost src = { λ halo. halo.decomp.now };

    ghost is_needed = { λ halo. is_halo halo.decomp.now halo.offsets.now };

    ghost receivers = { λ halo. pets_of halo.decomp.now };

    ghost is_sound = { λ halo. HasPairs halo.decomp.now halo.offsets.now halo.pairs };

    fn senders(&self) -> (u8, u8) {
        (self.decomp.first_pet(), self.decomp.pets())
    }

    fn receiver_count(&self) -> usize {
        pet_count(self.decomp)
    }

    fn receiver(&self, place: usize) -> u8 {
        pet_at(self.decomp, place)
    }

    fn push(&self, from: u8, place: usize, out: &mut Vec<u32>) -> Result<(), Memory> {
        let pair = self.pair(pet_at(self.decomp, place));
        let sender = self.pair(from);
        if pair.is_far(sender.part) {
            return Ok(());
        }
        push_cells(pair, self.decomp.grid().nx, sender.part, out)?;
        Ok(())
    }

    fn count(&self, from: u8, place: usize) -> u32 {
        let pair = self.pair(pet_at(self.decomp, place));
        let sender = self.pair(from);
        if pair.is_far(sender.part) {
            return 0;
        }
        count_cells(pair, self.decomp.grid().nx, sender.part)
    }
}
