//! Values that a component on a block takes from another.

ghost use Rattle.std.specs.Prelude.{◌≡◌, ◌<◌, All, List, ℕ, ℤ, length, map, slice_set};
ghost use Rattle.cpl_base.specs.Numbers.{IsValue};
ghost use Rattle.cpl_block.specs.Frames.{IsFrame};
ghost use Rattle.cpl_comp.specs.Worlds.{CompWorld, cell_value, changed};
ghost use Rattle.cpl_grid.specs.Parts.{cells_of_part};
ghost use Rattle.cpl_marks.specs.Held.{marks_in};
ghost use Rattle.cpl_phase.specs.Imported.{AreTakenIn};
ghost use Rattle.cpl_phase.specs.Locals.{IsAged, IsLocal, StandsForComp};
ghost use Rattle.cpl_phase.specs.Refreshed.{AreOnBlock};
ghost use Rattle.cpl_phase.specs.Rooms.{cell_count};
ghost use Rattle.cpl_phase.specs.Sites.{AreSites};

use crate::keeping::scatter_field;
use crate::local::LocalComp;
use crate::sites::Sites;
use cpl_base::Many;
use cpl_block::Frame;
use cpl_comp::Comp;
use cpl_field::Field;
use cpl_marks::Marks;

impl LocalComp {
    /// Takes values for the field of a place, one for each cell of the block in the order of the cells, and a time stamp in seconds
    /// after the start, if there is one. Takes no memory.
    ///
    /// Source: NUOPC Layer Reference, Connector; the stamp goes with the values.
    pub fn import(&mut self, comp: &Comp, field: u16, values: &[i64], stamp: Option<i64>)
        requires local { IsLocal comp.now self.old }
        requires field { field < length comp.now.fields }
        requires count { length values.now ≡ cell_count self.old.frame }
        requires values { All IsValue values.now }
        ensures local { IsLocal comp.now self.new }
        ensures frame { self.new.frame ≡ self.old.frame }
        ensures connected { self.new.connected ≡ self.old.connected }
        ensures aged { (done : ℕ) → IsAged done self.old → IsAged done self.new }
        ensures after { (world : CompWorld) (whole : List ℤ) → StandsForComp comp.now world self.old
            → values.now ≡ map (cell_value whole) (cells_of_part self.old.frame.grid self.old.frame.part)
            → StandsForComp comp.now (record world { fields = changed (λ taken. record taken { values = whole; stamp = stamp }) field world.fields }) self.new }
    {
        let place = field as usize;
        put_values(
            &self.frame,
            &self.area.sites,
            values,
            place,
            &mut self.fields,
        );
        show_values(values, place, &mut self.shown);
        set_stamp(stamp, place, &mut self.marks);
    }
}

/// Puts values of the block's cells into the field of a place.
fn put_values(frame: &Frame, sites: &Sites, values: &[i64], place: usize, fields: &mut Many<Field>)
    requires frame { IsFrame frame.now }
    requires sites { AreSites frame.now sites.now }
    requires count { length values.now ≡ length sites.now.homes.items }
    requires values { All IsValue values.now }
    requires place { place < length fields.old }
    requires fields { AreOnBlock frame.now (length fields.old) fields.old }
    ensures { AreTakenIn frame.now values.now place fields.old fields.new }
{
    let slots = fields.as_mut_slice();
    scatter_field(frame, sites, values, &mut slots[place]);
}

/// Lines up values as those of the field of a place.
fn show_values(values: &[i64], place: usize, shown: &mut Many<Field>)
    requires place { place < length shown.old }
    requires count { All (λ others. length others ≡ length values.now) shown.old }
    ensures { shown.new ≡ slice_set shown.old place values.now }
{
    let slots = shown.as_mut_slice();
    slots[place].values_mut().copy_from_slice(values);
}

/// Sets the stamp of a place.
fn set_stamp(stamp: Option<i64>, place: usize, marks: &mut Marks)
    requires { place < length marks.old.stamps }
    ensures { marks_in marks.new ≡ record (marks_in marks.old) { stamps = slice_set marks.old.stamps place stamp } }
{
    let slots = marks.stamps.as_mut_slice();
    slots[place] = stamp;
}
