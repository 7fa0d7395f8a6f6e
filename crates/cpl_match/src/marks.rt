//! Which names share a synonym call with the names of ports, for 64 ports at once.

ghost use Rattle.std.specs.Prelude.{◌≡◌, ◌≤◌, ◌+◌, ℕ, ◌<◌, ◌||◌, ◌&&◌, ◌==◌, false, All, IfOk, length, map};
ghost use Rattle.std.specs.List.{list_any};
ghost use Rattle.cpl_dict.specs.Numbers.{has_number, number_of};
ghost use Rattle.cpl_match.specs.Marks.{AreBelow, IsMarked, has_bit, is_named, is_set, number_at, shares_call};

use crate::bits::{clear, either, lone_bit};
use crate::port::Port;
use cpl_base::Memory;
use cpl_dict::Dict;
use std::alloc::Global;

/// So many ports are marked at once: a word has a bit for each.
const AT_ONCE: usize = 64;

/// For each name of a dictionary, which of 64 ports have it, and which have a name that shares a synonym call
/// with it.
#[derive(Drop)]
pub(crate) struct Marks {
    /// The place of the first of these ports.
    pub first: usize,
    /// The ports that have the name.
    pub own: Vec<u64>,
    /// The ports whose name shares a synonym call with it.
    pub shared: Vec<u64>,
}

impl Marks {
    ghost use Rattle.std.specs.Prelude.{◌≡◌, ◌≤◌, ◌+◌, ◌<◌, IfOk, length};
    ghost use Rattle.cpl_match.specs.Marks.{AreBelow, IsMarked};

    /// Marks for the first ports.
    pub fn new(alloc: Global, dict: &Dict, numbers: &[Option<usize>]) -> Result<Marks, Memory>
        requires { AreBelow (length dict.now.names) numbers.now }
        ensures { IfOk result (IsMarked dict.now numbers.now) }
    {
        let count = dict.name_count();
        let mut marks = Marks {
            first: 0,
            own: Vec::from_elem(alloc, 0, count)?,
            shared: Vec::from_elem(alloc, 0, count)?,
        };
        marks.mark(dict, numbers, 0);
        Ok(marks)
    }

    /// Marks for ports among which this one is; those that are there, where it is among them.
    pub fn turn_to(&mut self, dict: &Dict, numbers: &[Option<usize>], place: usize)
        requires numbers { AreBelow (length dict.now.names) numbers.now }
        requires place { place < length numbers.now }
        requires marked { IsMarked dict.now numbers.now self.old }
        ensures marked { IsMarked dict.now numbers.now self.new }
        ensures from { self.new.first ≤ place }
        ensures to { place < self.new.first + 64 }
    {
        if place < self.first || place - self.first >= AT_ONCE {
            self.mark(dict, numbers, place);
        }
    }

    /// Marks for the ports from this one on: one pass over the names of all synonym calls.
    fn mark(&mut self, dict: &Dict, numbers: &[Option<usize>], first: usize)
        requires numbers { AreBelow (length dict.now.names) numbers.now }
        requires first { first ≤ length numbers.now }
        requires own { length self.old.own.items ≡ length dict.now.names }
        requires shared { length self.old.shared.items ≡ length dict.now.names }
        ensures marked { IsMarked dict.now numbers.now self.new }
        ensures first { self.new.first ≡ first }
    {
        self.first = first;
        clear(&mut self.own);
        clear(&mut self.shared);
        note_ports(&mut self.own, numbers, first);
        note_calls(&mut self.shared, dict, self.own.as_slice());
        dict.number_laws();
    }
}

/// The number of each port's standard name, where the dictionary has it.
pub(crate) fn numbers_of(
    alloc: Global,
    dict: &Dict,
    ports: &[Port],
) -> Result<Vec<Option<usize>>, Memory>
    ensures { IfOk result (λ numbers. numbers.items ≡ map (λ port. number_of dict.now port.standard) ports.now) }
{
    let mut numbers = Vec::with_capacity(alloc, ports.len())?;
    for port in ports {
        numbers.push(dict.number(port.standard.bytes()))?;
    }
    Ok(numbers)
}

/// Notes at each name the ports from this one on that have it.
fn note_ports(own: &mut Vec<u64>, numbers: &[Option<usize>], first: usize)
    requires numbers { AreBelow (length own.old.items) numbers.now }
    requires first { first ≤ length numbers.now }
    requires none { (place bit : ℕ) → has_bit own.old.items place bit ≡ false }
    ensures count { length own.new.items ≡ length own.old.items }
    ensures noted { (name bit : ℕ) → bit < 64 → has_bit own.new.items name bit ≡ is_named numbers.now (first + bit) name }
{
    for bit in 0..AT_ONCE {
        if let Some(name) = number_at(numbers, first + bit) {
            add_bits(own, name, lone_bit(bit));
        }
    }
}

/// The number of a port's name, if the port is there and the dictionary has its name.
fn number_at(numbers: &[Option<usize>], place: usize) -> Option<usize>
    ensures { result ≡ number_at numbers.now place }
{
    match numbers.get(place) {
        Some(number) => *number,
        None => None,
    }
}

/// Adds bits to the word at a place.
fn add_bits(words: &mut Vec<u64>, place: usize, bits: u64)
    requires { place < length words.old.items }
    ensures count { length words.new.items ≡ length words.old.items }
    ensures added { (other bit : ℕ) → has_bit words.new.items other bit ≡ (has_bit words.old.items other bit || ((other == place) && is_set bits bit)) }
{
    words[place] = either(words[place], bits);
}

/// Notes at each name the ports whose name shares a synonym call with it.
fn note_calls(shared: &mut Vec<u64>, dict: &Dict, own: &[u64])
    requires own { length own.now ≡ length dict.now.names }
    requires shared { length shared.old.items ≡ length dict.now.names }
    requires none { (place bit : ℕ) → has_bit shared.old.items place bit ≡ false }
    ensures count { length shared.new.items ≡ length shared.old.items }
    ensures noted { (name bit : ℕ) → has_bit shared.new.items name bit ≡ shares_call dict.now own.now (length dict.now.calls) name bit }
{
    for call in 0..dict.call_count() {
        let names = dict.call_names(call);
        let bits = bits_of(own, names);
        give_bits(shared, names, bits);
    }
}

/// The ports that have one of these names.
fn bits_of(own: &[u64], names: &[usize]) -> u64
    requires { All (λ name. name < length own.now) names.now }
    ensures { (bit : ℕ) → is_set result bit ≡ list_any (λ name. has_bit own.now name bit) names.now }
{
    let mut bits = 0;
    for name in names {
        bits = either(bits, own[*name]);
    }
    bits
}

/// Notes ports at each of these names.
fn give_bits(shared: &mut Vec<u64>, names: &[usize], bits: u64)
    requires { All (λ name. name < length shared.old.items) names.now }
    ensures count { length shared.new.items ≡ length shared.old.items }
    ensures given { (name bit : ℕ) → has_bit shared.new.items name bit ≡ (has_bit shared.old.items name bit || (has_number names.now name && is_set bits bit)) }
{
    for name in names {
        add_bits(shared, *name, bits);
    }
}
