//! Ways found by their two components.

ghost use Rattle.std.specs.Prelude.{◌≡◌, ◌<◌, ◌+◌, ◌*◌, ◌++◌, ◌∷◌, [], List, None, IfOk, length, replicate};
ghost use Rattle.cpl_match.specs.WayIndex.{IsIndexed};
ghost use Rattle.cpl_match.specs.declared.port.Way.{Way};

use crate::port::Way;
use cpl_base::Memory;
use std::alloc::Global;
use std::marker::Model;

/// A component's number is below this.
const COMPONENTS: usize = 256;

/// Ways, each found by the two components between which it leads. Contracts see the list of them.
#[derive(Drop)]
pub(crate) struct WayTable {
    ways: Vec<Way>,
    /// For each two components the place of the first way between them, those of one destination one behind
    /// another.
    places: Vec<Option<usize>>,
}

impl Model for WayTable {
    ghost use Rattle.std.specs.Prelude.{List};
    ghost use Rattle.cpl_match.specs.WayIndex.{IsIndexed};
    ghost use Rattle.cpl_match.specs.declared.port.Way.{Way};

    ghost Value = { List Way };

    ghost view = { λ t. t.ways.items };

    ghost invariant = { λ t. IsIndexed t.ways.items t.places.items };
}

impl WayTable {
    ghost use Rattle.std.specs.Prelude.{◌≡◌, IfOk};
    ghost use Rattle.cpl_match.specs.Matching.{way_between};

    /// A table of these ways.
    pub fn new(alloc: Global, ways: &[Way]) -> Result<WayTable, Memory>
        ensures { IfOk result (λ table. table ≡ ways.now) }
    {
        Ok(WayTable {
            ways: Vec::from_slice(alloc, ways)?,
            places: way_places(alloc, ways)?,
        })
    }

    /// The first way from one component to another. Constant time.
    pub fn way(&self, src: u8, dst: u8) -> Option<Way>
        ensures { result ≡ way_between self.now src dst }
    {
        match self.places[slot(src, dst)] {
            Some(place) => Some(self.ways[place]),
            None => None,
        }
    }
}

/// Where the table has two components.
fn slot(src: u8, dst: u8) -> usize
    ensures slot { result ≡ 256 * dst + src }
    ensures src { src < 256 }
    ensures dst { dst < 256 }
{
    COMPONENTS * dst as usize + src as usize
}

/// For each two components the place of the first way between them.
fn way_places(alloc: Global, ways: &[Way]) -> Result<Vec<Option<usize>>, Memory>
    ensures { IfOk result (λ places. IsIndexed ways.now places.items) }
{
    let mut places = no_places(alloc, slot_count())?;
    for place in 0..ways.len() {
        let way = ways[place];
        note_way(&mut places, way, place);
    }
    Ok(places)
}

/// Notes the place of a way behind others, where none of those leads between its components.
fn note_way(places: &mut Vec<Option<usize>>, way: Way, place: usize)
    requires { length places.old.items ≡ 256 * 256 }
    ensures { (ways : List Way) → place ≡ length ways → IsIndexed ways places.old.items → IsIndexed (ways ++ way ∷ []) places.new.items }
{
    let slot = slot(way.src, way.dst);
    if places[slot].is_none() {
        places[slot] = Some(place);
    }
}

/// How many slots the table has.
fn slot_count() -> usize
    ensures { result ≡ 256 * 256 }
{
    COMPONENTS * COMPONENTS
}

/// A table of so many slots in which nothing stands.
fn no_places(alloc: Global, count: usize) -> Result<Vec<Option<usize>>, Memory>
    ensures { IfOk result (λ places. places.items ≡ replicate count None) }
{
    let none: Option<usize> = None;
    Ok(Vec::from_elem(alloc, none, count)?)
}
