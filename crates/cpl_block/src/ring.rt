//! The places of the ring, and how those are filled whose cells are the block's own.

ghost use Rattle.std.specs.Prelude.{◌≡◌, ◌<◌, IfOk, length};
ghost use Rattle.cpl_block.specs.Frames.{IsFrame, places_in};
ghost use Rattle.cpl_block.specs.Rings.{IsNoted, IsRefilled, IsRing};

use crate::frame::Frame;
use crate::laws::frame_laws;
use cpl_base::Memory;
use cpl_field::copy_within;
use std::alloc::Global;

/// The places of a ring, all lists ascending.
///
/// Source: this project's own.
#[derive(Drop)]
pub struct Ring {
    /// The places that stand for cells of the block.
    pub to: Vec<u32>,
    /// Where each of these is filled from.
    pub from: Vec<u32>,
    /// The places that stand for cells of other blocks.
    pub far: Vec<u32>,
}

/// The places of a block's ring. All memory is taken here.
///
/// Errors: `Memory` where memory runs out.
///
/// Source: this project's own.
pub fn ring_of(alloc: Global, frame: &Frame) -> Result<Ring, Memory>
    requires { IsFrame frame.now }
    ensures { IfOk result (λ ring. IsRing frame.now ring) }
{
    let mut ring = Ring {
        to: Vec::new(alloc),
        from: Vec::new(alloc),
        far: Vec::new(alloc),
    };
    for place in 0..frame.places() {
        note(&mut ring, frame, place)?;
    }
    Ok(ring)
}

/// Fills the places of the ring that stand for cells of the block from these cells' own. Takes no memory.
///
/// Source: this project's own.
pub fn refill(frame: &Frame, ring: &Ring, field: &mut [i64])
    requires frame { IsFrame frame.now }
    requires ring { IsRing frame.now ring.now }
    requires places { length field.old ≡ places_in frame.now }
    ensures { IsRefilled frame.now field.old field.new }
{
    frame_laws(frame);
    copy_within(field, &ring.to, &ring.from);
}

/// Notes a place in the list that it belongs to, if it is one of the ring.
#[tactic(auto, unfolding(crate::specs::Rings::is_near, crate::specs::Rings::is_far))]
fn note(ring: &mut Ring, frame: &Frame, place: u32) -> Result<(), Memory>
    requires frame { IsFrame frame.now }
    requires place { place < places_in frame.now }
    ensures { IfOk result (λ _. IsNoted frame.now place ring.old ring.new) }
{
    if frame.is_own(place) {
        return Ok(());
    }
    let cell = frame.stands_for(place);
    if !frame.is_ours(cell) {
        ring.far.push(place)?;
        return Ok(());
    }
    ring.to.push(place)?;
    ring.from.push(frame.home(cell))?;
    Ok(())
}
