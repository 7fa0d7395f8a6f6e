//! A native entry: a closure beside the formula whose value it answers.

ghost use Rattle.std.specs.Prelude.{IsTrue};
ghost use Rattle.cpl_formula.specs.Tree.{is_over};
ghost use Rattle.cpl_entry.specs.Answers.{AnswersFormula};

use cpl_base::{Memory, Text};
use cpl_formula::{EntrySign, Formula};
use std::alloc::Global;

/// What an entry computes by: a closure that gets the values of its inputs, in millionths, and answers a value.
///
/// Source: this project's own.
pub type EntryCall = Box<dyn Fn(&[i64]) -> i64 + Send + Sync>;

/// A rule that is written in code: its label, how many inputs it takes, the formula whose value it answers, and the
/// closure that computes it. Contracts see it without the closure (`entry_of`).
#[derive(Drop)]
pub struct Entry {
    label: Text,
    inputs: u8,
    formula: Formula,
    call: EntryCall,
    ghost over: { IsTrue (is_over inputs formula) },
    ghost answers: { AnswersFormula (EntryCall.pre call) (EntryCall.post call) inputs formula },
}

impl Entry {
    ghost use Rattle.std.specs.Prelude.{◌≡◌, IfOk, IsTrue, length};
    ghost use Rattle.std.specs.List.{All};
    ghost use Rattle.cpl_base.specs.Numbers.{IsValue};
    ghost use Rattle.cpl_formula.specs.Tree.{is_over, value_of};
    ghost use Rattle.cpl_entry.specs.Answers.{AnswersFormula};
    ghost use Rattle.cpl_entry.specs.Entries.{sign_of};
    ghost use Rattle.cpl_entry.specs.Views.{entry_of};

    /// An entry of this label. Takes no memory.
    ///
    /// The formula reads none but the first `inputs` inputs, and its numbers are values. At each list of `inputs`
    /// values the closure may be called, and answers the formula's value; how it computes it is its own matter.
    ///
    /// Source: this project's own.
    pub fn new(label: Text, inputs: u8, formula: Formula, call: EntryCall) -> Entry
        requires over { IsTrue (is_over inputs formula) }
        requires answers { AnswersFormula (EntryCall.pre call) (EntryCall.post call) inputs formula }
        ensures { entry_of result ≡ record { label = label; inputs = inputs; formula = formula } }
    {
        Entry {
            label,
            inputs,
            formula,
            call,
        }
    }

    /// The label and how many inputs it takes, in a sign of its own.
    pub(crate) fn sign(&self, alloc: Global) -> Result<EntrySign, Memory>
        ensures { IfOk result (λ sign. sign ≡ sign_of (entry_of self.now)) }
    {
        let label = self.label.copy(alloc)?;
        Ok(EntrySign {
            label,
            inputs: self.inputs,
        })
    }

    /// The formula's value, by the closure.
    #[inline(always)]
    pub(crate) fn call(&self, inputs: &[i64]) -> i64
        requires inputs { length inputs.now ≡ (entry_of self.now).inputs }
        requires values { All IsValue inputs.now }
        ensures { result ≡ value_of inputs.now (entry_of self.now).formula }
    {
        (self.call)(inputs)
    }
}
