//! Links: what imports take of exports.

ghost use Rattle.std.specs.Prelude.{◌≡◌, ◌≢◌, ◌+◌, ◌<◌, ◌≤◌, ◌^◌, [], All, IfSome, List, None, Some, ℕ, length, map, slice_get, slice_index_or, take};
ghost use Rattle.std.specs.List.{range_with_len};
ghost use Rattle.cpl_base.specs.Numbers.{IsValue};
ghost use Rattle.cpl_comp.specs.Worlds.{cell_value, changed};
ghost use Rattle.cpl_comp.specs.declared.component.Comp.{Comp as Described};
ghost use Rattle.cpl_phase.specs.Locals.{IsAged};
ghost use Rattle.cpl_comp.specs.Readings.{EntryAnswers};
ghost use Rattle.cpl_script.specs.Held.{IsHeldWorld};
ghost use Rattle.cpl_script.specs.SerialRun.{world_after};
ghost use Rattle.cpl_sequence.specs.declared.op.Op.TheVariants.{Link as LinkOp};
ghost use Rattle.cpl_script.specs.Sound.{IsCarried, IsConnector, cells_at};
ghost use Rattle.cpl_script.specs.Transfers.{World, carried, comp_at, image_at};
ghost use Rattle.cpl_serial.specs.Engines.{AreWhole, HaveRoomFor, StandEach, StandForWorld};
ghost use Rattle.cpl_phase.specs.declared.local.LocalComp.{LocalComp as Local};
ghost use Rattle.cpl_serial.specs.Images.{IsTableOver};
ghost use Rattle.cpl_serial.specs.Linked.{IsLinked};
ghost use Rattle.cpl_serial.specs.Passed.{is_passed};
ghost use Rattle.cpl_sweep.specs.Places.{field_at};

use crate::imaging::take_image;
use cpl_base::Many;
use cpl_comp::Comp;
use cpl_field::Field;
use cpl_match::Pair;
use cpl_phase::LocalComp;
use cpl_script::{Link, System};
use cpl_smm::Weights;

/// What links work in: the values that an import takes, and those that a row of weights takes from.
#[derive(Drop)]
pub(crate) struct Buffers {
    /// A value for each cell of an import.
    pub image: Field,
    /// A value for each entry of a row.
    pub gathered: Field,
}

/// Carries the pairs of the connector of a place: all, or at an initialisation those whose import is taken then. Takes no
/// memory.
pub(crate) fn link_at(
    system: &System,
    locals: &mut Many<LocalComp>,
    buffers: &mut Buffers,
    link: u16,
    at_init: bool,
)
    requires link { link < length system.now.links }
    requires whole { AreWhole system.now locals.old }
    requires room { HaveRoomFor system.now buffers.old }
    ensures whole { AreWhole system.now locals.new }
    ensures aged { (done : ℕ) → All (IsAged done) locals.old → All (IsAged done) locals.new }
    ensures after { (entries : EntryAnswers) (world : World) → StandForWorld system.now world locals.old
        → StandForWorld system.now (world_after system.now entries world (LinkOp link at_init)) locals.new }
    ensures room { HaveRoomFor system.now buffers.new }
{
    system.facts();
    let line = &system.links()[link as usize];
    carry_pairs(system, line, at_init, locals, buffers);
}

/// Carries the pairs of a connector.
fn carry_pairs(
    system: &System,
    line: &Link,
    at_init: bool,
    locals: &mut Many<LocalComp>,
    buffers: &mut Buffers,
)
    requires connector { IsConnector system.now.comps line.now }
    requires whole { AreWhole system.now locals.old }
    requires room { HaveRoomFor system.now buffers.old }
    ensures linked { IsLinked system.now line.now at_init (length line.now.pairs) locals.old locals.new }
    ensures room { HaveRoomFor system.now buffers.new }
{
    for j in 0..line.pairs.items().len() {
        carry_at(system, line, at_init, j, locals, buffers);
    }
}

/// Carries the pair of a place among those of a connector, if the operation carries it.
fn carry_at(
    system: &System,
    line: &Link,
    at_init: bool,
    j: usize,
    locals: &mut Many<LocalComp>,
    buffers: &mut Buffers,
)
    requires connector { IsConnector system.now.comps line.now }
    requires place { j < length line.now.pairs }
    requires whole { AreWhole system.now locals.old }
    requires room { HaveRoomFor system.now buffers.old }
    ensures linked { (first : List Local) → IsLinked system.now line.now at_init j first locals.old
        → IsLinked system.now line.now at_init (j + 1) first locals.new }
    ensures whole { AreWhole system.now locals.new }
    ensures room { HaveRoomFor system.now buffers.new }
{
    let pair = line.pairs.items()[j];
    if is_passed(system.comps(), at_init, pair) {
        carry_pair(system, line, pair, locals, buffers);
    }
}

/// Whether an operation carries a pair: each, or at an initialisation one whose import is taken then.
fn is_passed(comps: &[Comp], at_init: bool, pair: Pair) -> bool
    requires dst { pair.dst < length comps.now }
    requires field { (comp : Described) → slice_get comps.now pair.dst ≡ Some comp → pair.dst_field < length comp.fields }
    ensures { result ≡ is_passed comps.now at_init pair }
{
    !at_init || comps[pair.dst as usize].fields.items()[pair.dst_field as usize].at_init
}

/// Carries one pair of a connector: the import takes the image of the export, and its stamp. Takes no memory.
fn carry_pair(
    system: &System,
    line: &Link,
    pair: Pair,
    locals: &mut Many<LocalComp>,
    buffers: &mut Buffers,
)
    requires connector { IsConnector system.now.comps line.now }
    requires some { line.now.pairs ≢ [] }
    requires pair { IsCarried system.now.comps line.now.line pair }
    requires whole { AreWhole system.now locals.old }
    requires room { HaveRoomFor system.now buffers.old }
    ensures whole { AreWhole system.now locals.new }
    ensures room { HaveRoomFor system.now buffers.new }
    ensures aged { (done : ℕ) → All (IsAged done) locals.old → All (IsAged done) locals.new }
    ensures after { (before world : World) → IsHeldWorld system.now.comps before → comp_at world pair.src ≡ comp_at before pair.src
        → StandEach system.now world locals.old → StandEach system.now (carried system.now.comps line.now before world pair) locals.new }
{
    system.facts();
    let cells = system.comps()[pair.dst as usize].decomp.grid().cells() as usize;
    let source = &locals.items()[pair.src as usize];
    let stamp = read_export(&line.weights, source, pair.src_field, cells, buffers);
    let values = &buffers.image.values()[..cells];
    put_import(system, pair.dst, pair.dst_field, values, stamp, locals);
}

/// Works out the image of an export, and gives its stamp.
fn read_export(
    weights: &Option<Weights>,
    local: &LocalComp,
    field: u16,
    cells: usize,
    buffers: &mut Buffers,
) -> Option<i64>
    requires field { field < length local.now.shown }
    requires stamps { field < length local.now.marks.stamps }
    requires few { length (field_at local.now.shown field) ≤ 2 ^ 20 }
    requires cells { cells ≤ 2 ^ 20 }
    requires values { All IsValue (field_at local.now.shown field) }
    requires equal { weights.now ≡ None → length (field_at local.now.shown field) ≡ cells }
    requires weighted { IfSome weights.now (λ table. IsTableOver table (length (field_at local.now.shown field)) cells) }
    requires image { cells ≤ length buffers.old.image }
    requires room { length (field_at local.now.shown field) ≤ length buffers.old.gathered }
    ensures stamp { result ≡ slice_index_or local.now.marks.stamps field None }
    ensures image { take cells buffers.new.image ≡ map (image_at weights.now (cell_value (field_at local.now.shown field))) (range_with_len 1 cells) }
    ensures values { All IsValue (take cells buffers.new.image) }
    ensures image_size { length buffers.new.image ≡ length buffers.old.image }
    ensures gathered_size { length buffers.new.gathered ≡ length buffers.old.gathered }
{
    let source = local.values(field);
    image_front(
        weights,
        source,
        cells,
        buffers.gathered.values_mut(),
        buffers.image.values_mut(),
    );
    local.marks.stamps.items()[field as usize]
}

/// Writes the image of source values at so many cells to the front of a list.
fn image_front(
    weights: &Option<Weights>,
    source: &[i64],
    cells: usize,
    gathered: &mut [i64],
    image: &mut [i64],
)
    requires few { length source.now ≤ 2 ^ 20 }
    requires cells { cells ≤ 2 ^ 20 }
    requires values { All IsValue source.now }
    requires equal { weights.now ≡ None → length source.now ≡ cells }
    requires weighted { IfSome weights.now (λ table. IsTableOver table (length source.now) cells) }
    requires image { cells ≤ length image.old }
    requires room { length source.now ≤ length gathered.old }
    ensures image { take cells image.new ≡ map (image_at weights.now (cell_value source.now)) (range_with_len 1 cells) }
    ensures values { All IsValue (take cells image.new) }
    ensures size { length image.new ≡ length image.old }
    ensures gathered { length gathered.new ≡ length gathered.old }
{
    take_image(weights, source, gathered, &mut image[..cells]);
}

/// Puts values and a stamp into an import of the component of a place.
fn put_import(
    system: &System,
    component: u8,
    field: u16,
    values: &[i64],
    stamp: Option<i64>,
    locals: &mut Many<LocalComp>,
)
    requires component { component < length system.now.comps }
    requires field { (comp : Described) → slice_get system.now.comps component ≡ Some comp → field < length comp.fields }
    requires count { length values.now ≡ cells_at system.now.comps component }
    requires values { All IsValue values.now }
    requires whole { AreWhole system.now locals.old }
    ensures whole { AreWhole system.now locals.new }
    ensures aged { (done : ℕ) → All (IsAged done) locals.old → All (IsAged done) locals.new }
    ensures after { (world : World) → StandEach system.now world locals.old
        → StandEach system.now
        (changed (λ comp. record comp { fields = changed (λ taken. record taken { values = values.now; stamp = stamp }) field comp.fields }) component world)
        locals.new }
{
    let place = component as usize;
    let comp = &system.comps()[place];
    let slots = locals.as_mut_slice();
    slots[place].import(comp, field, values, stamp);
}
