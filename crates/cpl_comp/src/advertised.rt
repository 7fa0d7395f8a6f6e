//! A component as far as others need to know it.

ghost use Rattle.std.specs.Prelude.{◌≡◌, ◌≤◌, option_map};
ghost use Rattle.std.specs.Option.{ForSome};
ghost use Rattle.cpl_comp.specs.Components.{IsAdvertised};
ghost use Rattle.cpl_comp.specs.Pets.{first_pet_in, pet_count_in};

use crate::component::Kind;
use crate::field_rows::FieldRow;
use cpl_base::{Many, Text};
use std::marker::Model;

/// What was read of a component.
#[derive(Drop)]
pub(crate) struct Parts {
    /// Its name.
    pub name: Text,
    /// What it is.
    pub kind: Kind,
    /// The first and the last of its PETs, where they are given.
    pub bounds: Option<(u8, u8)>,
    /// Its fields.
    pub fields: Many<FieldRow>,
    /// The names of its phases.
    pub phases: Many<Text>,
}

/// A component with its kind, its PETs, its fields and the names of its phases; its grid and its rules are
/// still to be read. Contracts see it as an `Advertisement`.
#[derive(Drop)]
pub struct Advertised {
    parts: Parts,
}

impl Model for Advertised {
    ghost use Rattle.cpl_comp.specs.Advertised.{Advertisement};
    ghost use Rattle.cpl_comp.specs.Components.{IsAdvertised};

    ghost Value = { Advertisement };

    ghost use Rattle.cpl_comp.specs.Parts.{advertisement_of};

    ghost view = { λ a. advertisement_of a.parts };

    ghost invariant = { λ a. IsAdvertised (advertisement_of a.parts) };
}

impl Advertised {
    ghost use Rattle.cpl_comp.specs.Parts.{advertisement_of};

    /// The greatest PET of the component, at most 63, where its bounds are given; else it lives on all PETs. Takes no
    /// memory.
    ///
    /// Source: this project's own.
    pub fn last_pet(&self) -> Option<u8>
        ensures value { result ≡ option_map (λ bounds. bounds.1) self.now.bounds }
        ensures range { ForSome result (λ last. last ≤ 63) }
    {
        match self.parts.bounds {
            None => None,
            Some((_, last)) => Some(last),
        }
    }

    /// A component of these parts.
    pub(crate) fn new(parts: Parts) -> Advertised
        requires { IsAdvertised (advertisement_of parts) }
        ensures { result ≡ advertisement_of parts }
    {
        Advertised { parts }
    }

    /// The component's name.
    pub(crate) fn name(&self) -> &[u8]
        ensures { result.now ≡ self.now.name }
    {
        self.parts.name.bytes()
    }

    /// What the component is.
    pub(crate) fn kind(&self) -> Kind
        ensures { result ≡ self.now.kind }
    {
        self.parts.kind
    }

    /// Its fields.
    pub(crate) fn fields(&self) -> &[FieldRow]
        ensures value { result.now ≡ self.now.fields }
        ensures advertised { IsAdvertised self.now }
    {
        self.parts.fields.items()
    }

    /// The first of its PETs.
    pub(crate) fn first_pet(&self) -> u8
        ensures { result ≡ first_pet_in self.now.bounds }
    {
        match self.parts.bounds {
            None => 0,
            Some((first, _)) => first,
        }
    }

    /// How many PETs it has, of so many in all.
    pub(crate) fn pet_count(&self, pets: u8) -> u8
        ensures { result ≡ pet_count_in self.now.bounds pets }
    {
        match self.parts.bounds {
            None => pets,
            Some((first, last)) => last - first + 1,
        }
    }

    /// Its name, its fields and the names of its phases, given back. Takes no memory.
    pub(crate) fn into_parts(self) -> (Text, Many<FieldRow>, Many<Text>)
        ensures { result ≡ (self.name, self.fields, self.phases) }
    {
        let Advertised { parts } = self;
        (parts.name, parts.fields, parts.phases)
    }
}
