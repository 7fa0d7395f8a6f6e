//! The loops that are open at a place.

ghost use Rattle.std.specs.Prelude.{◌≡◌, [], ◌∷◌, length, IfSome, OnOk, MatchOption, option_copied};
ghost use Rattle.cpl_runseq.specs.Reading.{innermost_loop};

use crate::read_loop::ReadLoop;
use cpl_base::Memory;
use std::alloc::Global;
use std::marker::Model;

/// The loops that are open, each in the next. Contracts see the innermost first.
#[derive(Drop)]
pub(crate) struct OpenLoops {
    held: Vec<ReadLoop>,
}

impl Model for OpenLoops {
    ghost use Rattle.std.specs.Prelude.{List, reverse};
    ghost use Rattle.cpl_sequence.specs.contracts.element.Element as element;
    ghost use Rattle.std.specs.Coded.{codes};
    ghost use Rattle.cpl_runseq.specs.declared.read_loop.ReadLoop.{ReadLoop};

    ghost Value = { List ReadLoop };

    ghost coded = { Prim.hlevel (codes, element.the_row.coded) };

    ghost view = { λ o. reverse o.held.items };
}

impl OpenLoops {
    /// No loop is open.
    pub fn new(alloc: Global) -> OpenLoops
        ensures { result ≡ [] }
    {
        OpenLoops {
            held: Vec::new(alloc),
        }
    }

    /// How many loops are open.
    pub fn len(&self) -> usize
        ensures { result ≡ length self.now }
    {
        self.held.len()
    }

    /// The innermost loop, if one is open.
    pub fn innermost_loop(&self) -> Option<&ReadLoop>
        ensures { option_copied result ≡ innermost_loop self.now }
    {
        self.held.last()
    }

    /// A loop begins in the innermost.
    pub fn push(&mut self, l: ReadLoop) -> Result<(), Memory>
        ensures { OnOk result (self.new ≡ l ∷ self.old) }
    {
        self.held.push(l)?;
        Ok(())
    }

    /// Takes the innermost loop out, if one is open.
    pub fn pop(&mut self) -> Option<ReadLoop>
        ensures { MatchOption result ((self.old ≡ []) × (self.new ≡ [])) (λ l. self.old ≡ l ∷ self.new) }
    {
        self.held.pop()
    }
}
