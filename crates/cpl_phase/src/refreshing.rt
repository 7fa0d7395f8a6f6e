//! The rings of fields, filled.

ghost use Rattle.std.specs.Prelude.{◌≡◌, ◌<◌, All, length};
ghost use Rattle.cpl_block.specs.Frames.{IsFrame, places_in};
ghost use Rattle.cpl_block.specs.Rings.{IsRefilled, IsRing};
ghost use Rattle.cpl_phase.specs.Refreshed.{AreOnBlock, AreRefilled};

use cpl_block::{Frame, Ring, refill};
use cpl_field::Field;

/// Fills the rings of the fields of a halo from the block's own places. Takes no memory.
pub(crate) fn refresh(frame: &Frame, ring: &Ring, halo: &[u16], fields: &mut [Field])
    requires frame { IsFrame frame.now }
    requires ring { IsRing frame.now ring.now }
    requires halo { All (λ k. k < length fields.old) halo.now }
    requires fields { AreOnBlock frame.now (length fields.old) fields.old }
    ensures fields { AreOnBlock frame.now (length fields.old) fields.new }
    ensures filled { AreRefilled frame.now halo.now fields.old fields.new }
{
    for j in 0..halo.len() {
        let k = halo[j] as usize;
        refresh_one(frame, ring, &mut fields[k]);
    }
}

/// Fills the ring of a field.
fn refresh_one(frame: &Frame, ring: &Ring, field: &mut Field)
    requires frame { IsFrame frame.now }
    requires ring { IsRing frame.now ring.now }
    requires places { length field.old ≡ places_in frame.now }
    ensures { IsRefilled frame.now field.old field.new }
{
    refill(frame, ring, field.values_mut());
}
