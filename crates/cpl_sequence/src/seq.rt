//! A run sequence with what is kept of it.

ghost use Rattle.std.specs.Prelude.{◌≡◌, ◌^◌, ◌-◌, IfOk, length, min};

use crate::element::TopLoop;
use crate::link_line::LinkLine;
use crate::marks::{Mark, Marks, marks_of_tops};
use cpl_base::{Many, Memory};
use sqlite_items::Items;
use std::alloc::Global;
use std::marker::Model;

/// A run sequence: connectors, and the loops in which they and phases run.
///
/// Contracts see its connectors, its loops and its span. Beside these it keeps counts of operations, by which
/// an operation is found by its number.
///
/// Source: NUOPC Layer Reference, the run sequence.
#[derive(Drop)]
pub struct Seq {
    links: Many<LinkLine>,
    loops: Vec<TopLoop>,
    span: i64,
    count: u64,
    marks: Items<Mark>,
}

impl Model for Seq {
    ghost use Rattle.cpl_sequence.specs.Kept.{IsKept};
    ghost use Rattle.cpl_sequence.specs.Sequence.{Sequence};
    ghost use Rattle.cpl_sequence.specs.contracts.element.Element as element;
    ghost use Rattle.std.specs.Coded.{codes};

    ghost Value = { Sequence };

    ghost coded = { Prim.hlevel (codes, element.the_row.coded) };

    ghost view = { λ seq. record { links = seq.links; loops = seq.loops.items; span = seq.span } };

    ghost invariant = { λ seq. IsKept (record { links = seq.links; loops = seq.loops.items; span = seq.span }) (record { count = seq.count; marks = seq.marks }) };
}

impl Seq {
    ghost use Rattle.cpl_sequence.specs.Marks.{marks_of_tops};
    ghost use Rattle.cpl_sequence.specs.Operations.{operations_of};
    ghost use Rattle.cpl_sequence.specs.Sound.{IsSound};

    /// The sequence of these connectors and loops, which last so many seconds. Takes time in the number of its
    /// elements.
    ///
    /// The loops stand end to end from 0 to the span, which is at most 2^40. They nest at most 8 deep; a step
    /// divides its loop's duration, and a substep its step; a loop in a loop isn't empty; the connectors that
    /// run are among `links`.
    ///
    /// Errors: `Memory` alone.
    ///
    /// Source: this project's own.
    pub fn new(
        alloc: Global,
        links: Many<LinkLine>,
        loops: Vec<TopLoop>,
        span: i64,
    ) -> Result<Seq, Memory>
        requires { IsSound (record { links = links; loops = loops.items; span = span }) }
        ensures value { IfOk result (λ seq. seq ≡ record { links = links; loops = loops.items; span = span }) }
        ensures sound { IfOk result IsSound }
    {
        let Marks { count, marks } = marks_of_tops(alloc, loops.as_slice())?;
        Ok(Seq {
            links,
            loops,
            span,
            count,
            marks,
        })
    }

    /// The connectors, in the order of the lines that name them first.
    ///
    /// Source: this project's own.
    pub fn links(&self) -> &[LinkLine]
        ensures value { result.now ≡ self.now.links }
        ensures sound { IsSound self.now }
    {
        self.links.items()
    }

    /// How many seconds the run lasts, from 0 to 2^40.
    ///
    /// Source: this project's own.
    pub fn span(&self) -> i64
        ensures value { result ≡ self.now.span }
        ensures sound { IsSound self.now }
    {
        self.span
    }

    /// How many operations there are, capped at the greatest `u64`. Takes no memory, and constant time.
    ///
    /// Source: this project's own.
    pub fn op_count(&self) -> u64
        ensures value { result ≡ min (length (operations_of self.now)) (2 ^ 64 - 1) }
        ensures sound { IsSound self.now }
    {
        self.count
    }

    /// The loops that stand in no other.
    pub(crate) fn loops(&self) -> &[TopLoop]
        ensures value { result.now ≡ self.now.loops }
        ensures sound { IsSound self.now }
    {
        self.loops.as_slice()
    }

    /// What is kept of these loops.
    pub(crate) fn marks(&self) -> &[Mark]
        ensures { result.now ≡ (marks_of_tops self.now.loops).marks }
    {
        self.marks.as_slice()
    }
}
