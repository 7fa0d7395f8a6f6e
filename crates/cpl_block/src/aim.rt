//! Where the values of a parcel go, and how they are put there.

ghost use Rattle.std.specs.Prelude.{◌≡◌, ◌<◌, ◌^◌, ◌==◌, ℕ, ℤ, false, IfNone, IfOk, IfSome, List, length};
ghost use Rattle.std.specs.List.{All, list_any};
ghost use Rattle.cpl_base.specs.Numbers.{IsValue};
ghost use Rattle.cpl_block.specs.Aims.{AreAscending, IsAim, IsAimFor, IsAimedMore, IsPlacedIn, IsPut};
ghost use Rattle.cpl_block.specs.Frames.{IsFrame, IsOwn, places_in};

use crate::frame::Frame;
use cpl_base::Memory;
use cpl_field::copy_from;
use std::alloc::Global;

/// Where the values of a parcel go.
///
/// Source: this project's own.
#[derive(Drop)]
pub struct Aim {
    /// The places of the ring that stand for cells of the parcel, ascending.
    pub to: Vec<u32>,
    /// Where in the parcel the value of each stands.
    pub from: Vec<u32>,
}

/// Where the values of a parcel go that has a value for each of these cells. The cells ascend, perhaps with repeats; cells
/// that no place of the ring stands for go nowhere, and one that several places stand for goes to all of them. All memory
/// is taken here.
///
/// Errors: `Memory` where memory runs out.
///
/// Source: this project's own.
pub fn aim_of(alloc: Global, frame: &Frame, cells: &[u32]) -> Result<Aim, Memory>
    requires frame { IsFrame frame.now }
    requires ascending { AreAscending cells.now }
    requires few { length cells.now < 2 ^ 32 }
    ensures aim { IfOk result (λ aim. IsAim frame.now cells.now aim) }
    ensures fits { IfOk result (λ aim. IsAimFor frame.now (length cells.now) aim) }
{
    let mut aim = Aim {
        to: Vec::new(alloc),
        from: Vec::new(alloc),
    };
    for place in 0..frame.places() {
        note(&mut aim, frame, cells, place)?;
    }
    Ok(aim)
}

/// Puts the values of a parcel where they go. Takes no memory.
///
/// Source: this project's own.
pub fn put(frame: &Frame, aim: &Aim, values: &[i64], field: &mut [i64])
    requires aim { IsAimFor frame.now (length values.now) aim.now }
    requires places { length field.old ≡ places_in frame.now }
    ensures parcel { (cells : List ℕ) → IsAim frame.now cells aim.now → IsPut frame.now cells values.now field.old field.new }
    ensures own { (value : ℕ → ℤ) → IsOwn frame.now value field.old → IsOwn frame.now value field.new }
    ensures values { All IsValue values.now → All IsValue field.old → All IsValue field.new }
{
    copy_from(field, &aim.to, &aim.from, values);
}

/// Notes a place, if the cell that it stands for is another block's and in the parcel.
#[tactic(auto, unfolding(crate::specs::Aims::is_aimed, crate::specs::Rings::is_far))]
fn note(aim: &mut Aim, frame: &Frame, cells: &[u32], place: u32) -> Result<(), Memory>
    requires frame { IsFrame frame.now }
    requires ascending { AreAscending cells.now }
    requires few { length cells.now < 2 ^ 32 }
    requires place { place < places_in frame.now }
    ensures { IfOk result (λ _. IsAimedMore frame.now cells.now place aim.old aim.new) }
{
    if frame.is_own(place) {
        return Ok(());
    }
    let cell = frame.stands_for(place);
    if frame.is_ours(cell) {
        return Ok(());
    }
    if let Some(k) = place_in(cells, cell) {
        aim.to.push(place)?;
        aim.from.push(k)?;
    }
    Ok(())
}

/// Where a cell stands among ascending ones.
fn place_in(cells: &[u32], cell: u32) -> Option<u32>
    requires ascending { AreAscending cells.now }
    requires few { length cells.now < 2 ^ 32 }
    ensures found { IfSome result (λ k. IsPlacedIn cells.now cell k) }
    ensures none { IfNone result (list_any (λ s. s == cell) cells.now ≡ false) }
{
    match cells.binary_search(&cell) {
        Ok(k) => Some(k as u32),
        Err(_) => None,
    }
}
