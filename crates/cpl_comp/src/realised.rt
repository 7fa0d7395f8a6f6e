//! A component over its grid, with its rules.

ghost use Rattle.std.specs.Prelude.{◌≡◌};

use crate::component::Comp;
use cpl_base::Many;
use std::marker::Model;

/// A component that was read to its last rule. Contracts see it with the limits that it keeps to: how many PETs
/// and alarms there are, and how many inputs each native entry has.
#[derive(Drop)]
pub struct Realised {
    comp: Comp,
    pets: u8,
    alarms: usize,
    inputs: Many<u8>,
}

impl Model for Realised {
    ghost use Rattle.cpl_comp.specs.Components.{IsComponent, Realisation};
    ghost use Rattle.cpl_formula.specs.contracts.formula.Formula as formula;
    ghost use Rattle.std.specs.Coded.{codes};

    ghost Value = { Realisation };

    ghost coded = { Prim.hlevel (codes, formula.the_row.coded) };

    ghost view = { λ r. record { comp = r.comp; limits = record { pets = r.pets; alarms = r.alarms; inputs = r.inputs } } };

    ghost invariant = { λ r. IsComponent (record { pets = r.pets; alarms = r.alarms; inputs = r.inputs }) r.comp };
}

impl Realised {
    ghost use Rattle.cpl_comp.specs.Components.{IsComponent};

    /// A component within these limits.
    pub(crate) fn new(comp: Comp, pets: u8, alarms: usize, inputs: Many<u8>) -> Realised
        requires { IsComponent (record { pets = pets; alarms = alarms; inputs = inputs }) comp }
        ensures { result ≡ record { comp = comp; limits = record { pets = pets; alarms = alarms; inputs = inputs } } }
    {
        Realised {
            comp,
            pets,
            alarms,
            inputs,
        }
    }

    /// The component, lent.
    ///
    /// Source: this project's own.
    pub fn comp(&self) -> &Comp
        ensures value { result.now ≡ self.now.comp }
        ensures component { IsComponent self.now.limits result.now }
    {
        &self.comp
    }

    /// The component, given back. Takes no memory.
    ///
    /// Source: this project's own.
    pub fn into_comp(self) -> Comp
        ensures value { result ≡ self.comp }
        ensures component { IsComponent self.limits result }
    {
        let Realised { comp, .. } = self;
        comp
    }
}
