//! Names with their units, and which of them stand for one another.

ghost use Rattle.std.specs.Prelude.{◌≡◌, option_map};

use crate::fault::DictFault;
use crate::numbers::{have_common, make_room, note};
use crate::places::places_of;
use cpl_base::Text;
use indexmap::IndexMap;
use std::alloc::Global;
use std::marker::Model;

/// A dictionary of fields.
///
/// Contracts see the names with their units, in the order in which they were added, and for each synonym
/// call the names that it gave.
#[derive(Debug, Drop)]
pub struct Dict {
    alloc: Global,
    /// Each name with its units, in the order in which they were added: its index is its number.
    names: IndexMap<Vec<u8>, Text>,
    /// For each name the numbers of the synonym calls that gave it, ascending.
    name_calls: Vec<Vec<usize>>,
    /// For each synonym call the numbers of the names that it gave.
    call_names: Vec<Vec<usize>>,
}

impl Model for Dict {
    ghost use Rattle.cpl_dict.specs.Dict.{Dictionary};

    ghost Value = { Dictionary };

    ghost use Rattle.cpl_dict.specs.Kept.{IsSound, dictionary_of};

    ghost view = { dictionary_of };

    ghost invariant = { IsSound };
}

impl Dict {
    ghost use Rattle.std.specs.Prelude.{◌≡◌, ◌<◌, [], All, OnErr, IfErr, IfSome, length, option_map};
    ghost use Rattle.std.specs.List.{list_all};
    ghost use Rattle.std.specs.List.Sorted.{IsStrictlyIncreasing};
    ghost use Rattle.cpl_base.specs.Gives.{Gives};
    ghost use Rattle.cpl_dict.specs.Dict.{bond_of, is_among, is_known, same_units, units_agree, units_of, with_name, with_synonyms};
    ghost use Rattle.cpl_dict.specs.Numbers.{IsNumbered, call_names_of, calls_of, number_of, places_from};

    /// A dictionary without names. Takes no memory.
    pub fn new(alloc: Global) -> Dict
        ensures { result ≡ record { names = []; calls = [] } }
    {
        Dict {
            alloc,
            names: IndexMap::new(alloc),
            name_calls: Vec::new(alloc),
            call_names: Vec::new(alloc),
        }
    }

    /// Adds a name with its units.
    ///
    /// Errors: `NameTwice` exactly where the name is there, also where no memory is left; `Memory`. A
    /// call that is refused changes nothing.
    ///
    /// Source: NUOPC Layer Reference, Field Dictionary.
    pub fn add(&mut self, name: Text, units: Text) -> Result<(), DictFault>
        ensures gives { Gives DictFault.Memory (λ _. self.new) result (with_name self.old name units) }
        ensures twice { IfErr (with_name self.old name units) (λ fault. result ≡ Err fault) }
        ensures err { OnErr result (self.new ≡ self.old) }
    {
        if self.units(name.bytes()).is_some() {
            return Err(DictFault::NameTwice);
        }
        let key = Vec::from_slice(self.alloc, name.bytes())?;
        self.name_calls.reserve(1)?;
        self.names.insert(key, units)?;
        self.name_calls.push(Vec::new(self.alloc)).unwrap();
        Ok(())
    }

    /// Lets names stand for one another, each for each other of this call. They don't chain: names of
    /// two calls that share a third are no synonyms by that.
    ///
    /// Errors: `NameUnknown` exactly where one of the names isn't there; else `UnitsDiffer` exactly
    /// where two of them have unequal units, both also where no memory is left; `Memory`. A call that
    /// is refused changes nothing.
    ///
    /// Source: NUOPC Layer Reference, Field Dictionary.
    pub fn synonym(&mut self, names: &[Text]) -> Result<(), DictFault>
        ensures gives { Gives DictFault.Memory (λ _. self.new) result (with_synonyms self.old names.now) }
        ensures unfit { IfErr (with_synonyms self.old names.now) (λ fault. result ≡ Err fault) }
        ensures err { OnErr result (self.new ≡ self.old) }
    {
        if !self.are_known(names) {
            return Err(DictFault::NameUnknown);
        }
        if !self.agree(names) {
            return Err(DictFault::UnitsDiffer);
        }
        let places = places_of(self.alloc, &self.names, names)?;
        make_room(&mut self.name_calls, places.as_slice())?;
        self.call_names.reserve(1)?;
        note(
            &mut self.name_calls,
            places.as_slice(),
            self.call_names.len(),
        );
        self.call_names.push(places).unwrap();
        Ok(())
    }

    /// The units of a name, if it is there. Takes no memory.
    ///
    /// Source: NUOPC Layer Reference, Field Dictionary.
    pub fn units(&self, name: &[u8]) -> Option<&Text>
        ensures { option_map (λ units. units.now) result ≡ units_of self.now name.now }
    {
        self.names.get(name)
    }

    /// How well two names match: 2 where they are equal, else 1 where one synonym call gave both,
    /// else 0. Takes no memory, and time in the number of synonym calls that gave one of the two.
    ///
    /// Source: this project's own.
    pub fn bond(&self, a: &[u8], b: &[u8]) -> u8
        ensures { result ≡ bond_of self.now a.now b.now }
    {
        if a == b {
            return 2;
        }
        if have_common(self.calls_by_name(a), self.calls_by_name(b)) {
            1
        } else {
            0
        }
    }

    /// How many names there are. Constant time.
    ///
    /// Source: this project's own.
    pub fn name_count(&self) -> usize
        ensures { result ≡ length self.now.names }
    {
        self.names.len()
    }

    /// How many synonym calls there were that weren't refused. Constant time.
    ///
    /// Source: this project's own.
    pub fn call_count(&self) -> usize
        ensures { result ≡ length self.now.calls }
    {
        self.call_names.len()
    }

    /// The number of a name, if it is there: how many names were added before it. Constant time, and no
    /// memory.
    ///
    /// Source: this project's own.
    pub fn number(&self, name: &[u8]) -> Option<usize>
        ensures number { result ≡ number_of self.now name.now }
        ensures within { IfSome result (λ number. number < length self.now.names) }
    {
        self.names.get_index_of(name)
    }

    /// The numbers of the synonym calls that gave the name of this number, ascending: a call's number is
    /// how many calls were before it. Constant time, and no memory. The number is below that of names.
    ///
    /// Source: this project's own.
    pub fn calls(&self, number: usize) -> &[usize]
        requires { number < length self.now.names }
        ensures calls { result.now ≡ calls_of self.now number }
        ensures ascending { IsStrictlyIncreasing result.now }
        ensures within { All (λ call. call < length self.now.calls) result.now }
    {
        self.name_calls[number].as_slice()
    }

    /// The numbers of the names that the synonym call of this number gave, in its order. Constant time,
    /// and no memory. The number is below that of calls.
    ///
    /// Source: this project's own.
    pub fn call_names(&self, call: usize) -> &[usize]
        requires { call < length self.now.calls }
        ensures names { result.now ≡ call_names_of self.now call }
        ensures within { All (λ number. number < length self.now.names) result.now }
    {
        self.call_names[call].as_slice()
    }

    /// What numbers say of names and of bonds, as a fact for proofs.
    ///
    /// Source: this project's own.
    pub fn number_laws(&self)
        ensures { IsNumbered self.now }
    {
        let _names = &self.names;
    }

    /// The numbers of the synonym calls that gave a name, ascending.
    fn calls_by_name(&self, name: &[u8]) -> &[usize]
        ensures { result.now ≡ places_from 0 (λ call. is_among call name.now) self.now.calls }
    {
        match self.names.get_index_of(name) {
            Some(number) => self.name_calls[number].as_slice(),
            None => &[],
        }
    }

    /// Whether each of the names is there.
    fn are_known(&self, names: &[Text]) -> bool
        ensures { result ≡ list_all (is_known self.now) names.now }
    {
        names.iter().all(|name| self.units(name.bytes()).is_some())
    }

    /// Whether any two of the names have equal units.
    fn agree(&self, names: &[Text]) -> bool
        ensures { result ≡ units_agree self.now names.now }
    {
        match names.first() {
            None => true,
            Some(first) => names
                .iter()
                .all(|name| self.have_same_units(first.bytes(), name.bytes())),
        }
    }

    /// Whether two names have equal units.
    fn have_same_units(&self, a: &[u8], b: &[u8]) -> bool
        ensures { result ≡ same_units self.now a.now b.now }
    {
        match (self.units(a), self.units(b)) {
            (Some(left), Some(right)) => left.bytes() == right.bytes(),
            (None, None) => true,
            _ => false,
        }
    }
}
