//! Files that lie in memory, for tests and for a caller that has them at hand.

ghost use Rattle.std.specs.Prelude.{◌≡◌, ◌≢◌, ℕ, List, Some, None, OnOk, OnErr};

use crate::memory::Memory;
use crate::shelf::{LoadFault, Shelf};
use std::alloc::Global;
use std::collections::BTreeMap;

/// Files in memory, by their names. It tells what it holds.
#[derive(Debug, Drop)]
pub struct MemShelf {
    alloc: Global,
    held: BTreeMap<String, Vec<u8>>,
    loads: u64,
    failing: Option<u64>,
    faults: u64,
}

impl MemShelf {
    ghost use Rattle.cpl_base.specs.InMemory.{held_at, failing_load, faults_of, loads_of};

    /// A shelf without files.
    pub fn new(alloc: Global) -> MemShelf
        ensures empty { (name : List ℕ) → held_at result name ≡ None }
        ensures sound { failing_load result ≡ None }
        ensures number { loads_of result ≡ 0 }
        ensures faults { faults_of result ≡ 0 }
    {
        MemShelf {
            alloc,
            held: BTreeMap::new(alloc),
            loads: 0,
            failing: None,
            faults: 0,
        }
    }

    /// Puts a file on the shelf, in place of one that has its name.
    pub fn add(&mut self, name: &str, bytes: &[u8]) -> Result<(), Memory>
        ensures added { OnOk result (held_at self.new name.now ≡ Some bytes.now) }
        ensures others { (other : List ℕ) → other ≢ name.now → held_at self.new other ≡ held_at self.old other }
        ensures err { OnErr result ((other : List ℕ) → held_at self.new other ≡ held_at self.old other) }
        ensures failing { failing_load self.new ≡ failing_load self.old }
        ensures number { loads_of self.new ≡ loads_of self.old }
        ensures faults { faults_of self.new ≡ faults_of self.old }
    {
        let name = String::from_str(self.alloc, name)?;
        let bytes = Vec::from_slice(self.alloc, bytes)?;
        self.held.insert(name, bytes)?;
        Ok(())
    }

    /// Lets the load of this number fail, counted from 0, in place of the one of an earlier call.
    pub fn fail_on(&mut self, call: u64)
        ensures failing { failing_load self.new ≡ Some call }
        ensures held { (name : List ℕ) → held_at self.new name ≡ held_at self.old name }
        ensures number { loads_of self.new ≡ loads_of self.old }
        ensures faults { faults_of self.new ≡ faults_of self.old }
    {
        self.failing = Some(call);
    }
}

impl Shelf for MemShelf {
    ghost use Rattle.std.specs.Prelude.{◌≡◌, ◌≢◌, ◌⊎◌, ◌+◌, ◌^◌, ◌<◌, ◌≤◌, length, Some, None, IfOk, IfSome, IsErrOf};
    ghost use Rattle.cpl_base.specs.InMemory.{Answers, held_at, failing_load, loads_of};
    ghost use Rattle.cpl_base.specs.Loading.{IsLoaded, IsMissing, IsLonger};
    ghost use Rattle.cpl_base.specs.Outside.{Rises};

    ghost files = { λ s. Some (held_at s) };

    ghost faults = { λ s. s.faults };

    fn load(&mut self, alloc: Global, name: &str, limit: usize) -> Result<Vec<u8>, LoadFault>
        ensures told { Some (held_at self.new) ≡ Some (held_at self.old) }
        ensures counts { self.old.faults ≤ self.new.faults }
        ensures quiet { IsErrOf result LoadFault.Failed ⊎ (self.new.faults ≡ self.old.faults) }
        ensures loaded { IfOk result (λ bytes. (length bytes.items ≤ limit) × IfSome (Some (held_at self.old)) (IsLoaded name.now bytes.items)) }
        ensures failed { IsErrOf result LoadFault.Failed → Rises self.old.faults self.new.faults ⊎ IsMissing name.now (Some (held_at self.old)) }
        ensures too_long { IsErrOf result LoadFault.TooLong → IfSome (Some (held_at self.old)) (IsLonger name.now limit) }

        // The load that is to fail does so, and its count rises.
        ensures fails { failing_load self.old ≡ Some (loads_of self.old) → IsErrOf result LoadFault.Failed × Rises self.old.faults self.new.faults }

        // Any other answers by what the name holds, and the count stays.
        ensures answers { failing_load self.old ≢ Some (loads_of self.old) → Answers (held_at self.old name.now) limit result × (self.new.faults ≡ self.old.faults) }
        ensures number { loads_of self.old + 1 < 2 ^ 64 → loads_of self.new ≡ loads_of self.old + 1 }

        // Which load is to fail stays as it was set.
        ensures failing { failing_load self.new ≡ failing_load self.old }

        // Without a load that is to fail, the count stays.
        ensures sound { failing_load self.old ≡ None → self.new.faults ≡ self.old.faults }
    {
        let call = self.loads;
        self.loads = call.saturating_add(1);
        if self.failing == Some(call) {
            self.faults = self.faults.saturating_add(1);
            return Err(LoadFault::Failed);
        }
        match self.held.get(name) {
            None => Err(LoadFault::Failed),
            Some(bytes) if bytes.len() > limit => Err(LoadFault::TooLong),
            Some(bytes) => {
                let copy = Vec::from_slice(alloc, bytes.as_slice());
                copy.map_err(|_| LoadFault::Memory)
            }
        }
    }
}
