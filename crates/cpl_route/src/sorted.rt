//! Lists of needs, brought into the order of their PETs and each into ascending order.

ghost use Rattle.std.specs.Prelude.{◌≡◌, ◌≢◌, ℕ, ◌+◌, ◌<◌, true, length, slice_index_or, IfOk, MatchOption};
ghost use Rattle.cpl_route.specs.Picks.{AreCopies, ArePickedAlike, IsAtPlace, is_listed};
ghost use Rattle.cpl_route.specs.Routes.{ArePetsDistinct, are_ascending, is_ascending};
ghost use Rattle.cpl_route.specs.declared.need.Need.{Need};

use crate::need::Need;
use cpl_base::{Many, Memory};
use std::alloc::Global;

/// Copies of lists of distinct PETs, in order.
pub(crate) fn ascending_needs(alloc: Global, needs: &[Need]) -> Result<Vec<Need>, Memory>
    requires { ArePetsDistinct needs.now }
    ensures ascending { IfOk result (λ copies. are_ascending copies.items ≡ true) }
    ensures alike { IfOk result (λ copies. ArePickedAlike needs.now copies.items) }
{
    let mut copies = Vec::with_capacity(alloc, needs.len())?;
    for pet in 0..256u16 {
        add_copy(alloc, needs, pet as u8, &mut copies)?;
    }
    Ok(copies)
}

/// Adds a copy of the list of a PET, where there is one.
fn add_copy(alloc: Global, needs: &[Need], pet: u8, copies: &mut Vec<Need>) -> Result<(), Memory>
    requires distinct { ArePetsDistinct needs.now }
    requires copies { AreCopies needs.now copies.old.items pet }
    ensures { IfOk result (λ _. AreCopies needs.now copies.new.items (pet + 1)) }
{
    let Some(place) = place_of(needs, pet) else {
        return Ok(());
    };
    let copy = ascending_copy(alloc, &needs[place])?;
    copies.push(copy)?;
    Ok(())
}

/// The place of the list of a PET.
fn place_of(needs: &[Need], pet: u8) -> Option<usize>
    ensures { MatchOption result ((k : ℕ) (other : Need) → k < length needs.now → (slice_index_or needs.now k other).pet ≢ pet) (λ place. IsAtPlace needs.now pet place) }
{
    for place in 0..needs.len() {
        let need = &needs[place];
        if need.pet == pet {
            return Some(place);
        }
    }
    None
}

/// A copy of a list, in ascending order.
fn ascending_copy(alloc: Global, need: &Need) -> Result<Need, Memory>
    ensures pet { IfOk result (λ copy. copy.pet ≡ need.now.pet) }
    ensures ascending { IfOk result (λ copy. is_ascending 0 copy.cells ≡ true) }
    ensures same { IfOk result (λ copy. (s : ℕ) → is_listed copy.cells s ≡ is_listed need.now.cells s) }
{
    let mut cells = need.cells.items().to_vec(alloc)?;
    cells.sort()?;
    Ok(Need {
        pet: need.pet,
        cells: Many::of(cells),
    })
}
