//! Running sums of kept fields.

ghost use Rattle.std.specs.Prelude.{◌≡◌, ◌≤◌};

use crate::fault::AverageEmpty;
use crate::sums::{add_numbers, take_averages};
use cpl_base::Memory;
use std::alloc::Global;
use std::marker::Model;

/// The whole fields that were kept since the last average, by their number and their sum at each cell. Contracts see
/// these two; an `Accum` stands for each list of fields that has them.
///
/// Source: this project's own.
#[derive(Drop)]
pub struct Accum {
    /// How many fields are kept.
    count: u32,
    /// Their sum at each cell.
    sums: Vec<i128>,
}

impl Model for Accum {
    ghost use Rattle.cpl_mediator.specs.Averages.{IsRunning, RunningSums};

    ghost Value = { RunningSums };

    ghost view = { λ a. record { count = a.count; sums = a.sums.items } };

    ghost invariant = { λ a. IsRunning (record { count = a.count; sums = a.sums.items }) };
}

impl Accum {
    ghost use Rattle.std.specs.Prelude.{◌≡◌, ◌+◌, ◌^◌, ◌<◌, ◌↔◌, ℤ, List, [], ◌∷◌, ◌++◌, length};
    ghost use Rattle.std.specs.Prelude.{All, IfOk, IsErr, OnErr, OnOk};
    ghost use Rattle.cpl_base.specs.Numbers.{IsValue};
    ghost use Rattle.cpl_mediator.specs.Averages.{IsRunning, StandsFor, average_of, no_sums, sums_with};

    /// Sums of no field of so many cells. All memory is taken here.
    ///
    /// Errors: `Memory` where memory runs out.
    ///
    /// Source: this project's own.
    pub fn new(alloc: Global, cells: u32) -> Result<Accum, Memory>
        ensures value { IfOk result (λ accum. accum ≡ no_sums cells) }
        ensures stands { IfOk result (λ accum. StandsFor accum []) }
    {
        Ok(Accum {
            count: 0,
            sums: Vec::from_elem(alloc, 0, cells as usize)?,
        })
    }

    /// Keeps one more field, a number for each cell. Takes no memory.
    ///
    /// Source: this project's own.
    pub fn add(&mut self, values: &[i64])
        requires count { self.old.count < 2 ^ 24 }
        requires cells { length values.now ≡ length self.old.sums }
        ensures count { self.new.count ≡ self.old.count + 1 }
        ensures cells { length self.new.sums ≡ length self.old.sums }
        ensures sums { self.new.sums ≡ sums_with self.old.sums values.now }
        ensures stands { (kept : List (List ℤ)) → StandsFor self.old kept
            → StandsFor self.new (kept ++ values.now ∷ []) }
    {
        add_numbers(self.sums.as_mut_slice(), values, self.count);
        self.count += 1;
    }

    /// Writes the average of the kept fields, rounded at each cell to the nearest whole number, a half up, and keeps no
    /// field any more. `into` has a place for each cell. Takes no memory.
    ///
    /// Errors: `AverageEmpty` exactly where no field is kept; then nothing changes.
    ///
    /// Source: this project's own.
    pub fn average(&mut self, into: &mut [i64]) -> Result<(), AverageEmpty>
        requires cells { length into.old ≡ length self.old.sums }
        ensures cells { length self.new.sums ≡ length self.old.sums }
        ensures empty { IsErr result ↔ (self.old.count ≡ 0) }
        ensures unchanged { OnErr result ((self.new ≡ self.old) × (into.new ≡ into.old)) }
        ensures value { OnOk result ((kept : List (List ℤ)) → StandsFor self.old kept
            → into.new ≡ average_of (length self.old.sums) kept) }
        ensures within { OnOk result ((kept : List (List ℤ)) → StandsFor self.old kept
            → All (All IsValue) kept → All IsValue into.new) }
        ensures fresh { OnOk result (self.new ≡ no_sums (length self.old.sums)) }
        ensures stands { OnOk result (StandsFor self.new []) }
    {
        if self.count == 0 {
            return Err(AverageEmpty);
        }
        take_averages(self.sums.as_mut_slice(), into, self.count);
        self.count = 0;
        Ok(())
    }

    /// How many fields are kept.
    ///
    /// Source: this project's own.
    pub fn count(&self) -> u32
        ensures value { result ≡ self.now.count }
        ensures running { IsRunning self.now }
    {
        self.count
    }
}
