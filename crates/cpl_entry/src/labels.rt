//! The labels of a book, found by their bytes.

use cpl_base::Memory;
use indexmap::IndexSet;
use std::alloc::Global;
use std::marker::Model;

/// Distinct labels, in the order in which they were added. Contracts see the list of them.
#[derive(Drop)]
pub(crate) struct Labels {
    held: IndexSet<Vec<u8>>,
}

impl Model for Labels {
    ghost use Rattle.std.specs.Prelude.{List, ℕ, map};

    ghost Value = { List (List ℕ) };

    ghost view = { λ a. map (λ label. label.items) a.held.keys };
}

impl Labels {
    ghost use Rattle.std.specs.Prelude.{◌≡◌, ◌++◌, ◌∷◌, [], Bool, IfOk, not, if◌then◌else◌};
    ghost use Rattle.cpl_base.specs.Words.{place_of};
    ghost use Rattle.cpl_entry.specs.Kept.{is_there, with_label};

    /// No labels.
    pub(crate) fn new(alloc: Global) -> Labels
        ensures { result ≡ [] }
    {
        Labels {
            held: IndexSet::new(alloc),
        }
    }

    /// Adds a label behind the others, unless it is there; whether it was added.
    pub(crate) fn add(&mut self, alloc: Global, label: &[u8]) -> Result<bool, Memory>
        ensures added { IfOk result (λ added. added ≡ not (is_there self.old label.now)) }
        ensures labels { IfOk result (λ _. self.new ≡ with_label self.old label.now) }
    {
        let label = Vec::from_slice(alloc, label)?;
        Ok(self.held.insert(label)?)
    }

    /// The place of a label, counted from 0.
    pub(crate) fn place(&self, label: &[u8]) -> Option<usize>
        ensures { result ≡ place_of self.now label.now }
    {
        self.held.get_index_of(label)
    }
}
