//! The end of a field, over a block that is the whole grid.

ghost use Rattle.std.specs.Prelude.{◌≡◌, length};
ghost use Rattle.cpl_block.specs.Frames.{IsFrame, places_in};
ghost use Rattle.cpl_comp.specs.Worlds.{FieldWorld};
ghost use Rattle.cpl_grid.specs.Owners.{Layout};
ghost use Rattle.cpl_grid.specs.Parts.{whole_part};
ghost use Rattle.cpl_script.specs.SerialRun.{active_values, field_end, sum_of};
ghost use Rattle.cpl_serial.specs.Whole.{HoldsWorld};

use cpl_block::{Frame, greatest, least, sum, whole_laws};
use cpl_field::Field;
use cpl_script::FieldEnd;

/// The end of a field: its stamp, the least and the greatest of its values, and their sum.
pub(crate) fn field_end(frame: &Frame, field: &Field, stamp: Option<i64>) -> FieldEnd
    requires frame { IsFrame frame.now }
    requires whole { frame.now.part ≡ whole_part frame.now.grid }
    requires places { length field.now ≡ places_in frame.now }
    ensures { (layout : Layout) (world : FieldWorld) → layout.grid ≡ frame.now.grid → world.stamp ≡ stamp
        → HoldsWorld frame.now field.now world → result ≡ field_end layout world }
{
    whole_laws(frame);
    let values = field.values();
    FieldEnd {
        stamp,
        low: least(frame, values),
        high: greatest(frame, values),
        sum: sum(frame, values),
    }
}

/// The sum of a field's values.
pub(crate) fn value_sum(frame: &Frame, field: &Field) -> i128
    requires frame { IsFrame frame.now }
    requires whole { frame.now.part ≡ whole_part frame.now.grid }
    requires places { length field.now ≡ places_in frame.now }
    ensures { (layout : Layout) (world : FieldWorld) → layout.grid ≡ frame.now.grid
        → HoldsWorld frame.now field.now world → result ≡ sum_of (active_values layout world.values) }
{
    whole_laws(frame);
    sum(frame, field.values())
}
