//! The connectors that were read so far, found by their two components.

ghost use Rattle.std.specs.Prelude.{◌≡◌, ◌<◌, ◌++◌, ◌∷◌, ◌^◌, [], None, length, IfOk, OnOk, option_copied};
ghost use Rattle.std.specs.List.{slice_get};
ghost use Rattle.cpl_runseq.specs.Links.{link_at};

use cpl_base::{Many, Memory};
use cpl_sequence::LinkLine;
use std::alloc::Global;
use std::marker::Model;

/// There are at most so many components.
const MOST_NAMES: usize = 32;

/// Connectors, in the order of their first lines. Contracts see the list of them.
#[derive(Drop)]
pub(crate) struct Links {
    lines: Vec<LinkLine>,
    /// The place of a connector, for each pair of components, those of one source one behind another.
    places: Vec<Option<u16>>,
}

impl Model for Links {
    ghost use Rattle.std.specs.Prelude.{List};
    ghost use Rattle.cpl_sequence.specs.declared.link_line.LinkLine.{LinkLine};
    ghost use Rattle.cpl_runseq.specs.LinkTable.{IsIndexed};

    ghost Value = { List LinkLine };

    ghost view = { λ l. l.lines.items };

    ghost invariant = { λ l. IsIndexed l.lines.items l.places.items };
}

impl Links {
    /// No connectors.
    pub fn new(alloc: Global) -> Result<Links, Memory>
        ensures { IfOk result (λ links. links ≡ []) }
    {
        let none: Option<u16> = None;
        Ok(Links {
            lines: Vec::new(alloc),
            places: Vec::from_elem(alloc, none, MOST_NAMES * MOST_NAMES)?,
        })
    }

    /// The place of the connector of two components, if there is one. Constant time.
    pub fn place(&self, src: u8, dst: u8) -> Option<u16>
        requires source { src < 32 }
        requires destination { dst < 32 }
        ensures { result ≡ link_at src dst self.now }
    {
        self.places[MOST_NAMES * src as usize + dst as usize]
    }

    /// The connector of a place, if there is one.
    pub fn get(&self, place: u16) -> Option<&LinkLine>
        ensures { option_copied result ≡ slice_get self.now place }
    {
        self.lines.get(place as usize)
    }

    /// Puts a connector of a new pair behind the others; the answer is its place.
    pub fn add(&mut self, line: LinkLine) -> Result<u16, Memory>
        requires source { line.src < 32 }
        requires destination { line.dst < 32 }
        requires fresh { link_at line.src line.dst self.old ≡ None }
        ensures place { IfOk result (λ place. place ≡ length self.old) }
        ensures added { OnOk result (self.new ≡ self.old ++ line ∷ []) }
    {
        let slot = MOST_NAMES * line.src as usize + line.dst as usize;
        let place = self.lines.len() as u16;
        self.lines.push(line)?;
        self.places[slot] = Some(place);
        Ok(place)
    }

    /// The connectors, given back. Takes no memory.
    pub fn into_lines(self) -> Many<LinkLine>
        ensures value { result ≡ self }
        ensures few { length result < 2 ^ 16 }
    {
        let Links { lines, places: _ } = self;
        Many::of(lines)
    }
}
