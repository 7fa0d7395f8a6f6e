//! The rounds in which components are placed one behind another.

ghost use Rattle.std.specs.Prelude.{◌≡◌, ℕ, ◌+◌, ◌*◌, ◌<◌, List, [], take, true, length, slice_set, IfOk, IfSome, vec_len};
ghost use Rattle.cpl_init.specs.Orders.{AreNeeds};
ghost use Rattle.cpl_init.specs.Rounds.{IsLowered, IsRounds, MissesEach, first_free_component, free_components};

use crate::needs::Needs;
use std::alloc::{AllocError, Global};

/// What each round looks up: who needs whom, how many producers each component misses, and who is
/// placed.
#[derive(Drop)]
pub(crate) struct Rounds {
    /// How many components there are.
    count: u8,
    /// Whether a component needs a producer, at the place `component * count + producer`.
    needed: Vec<bool>,
    /// How many producers that a component needs aren't placed.
    missing: Vec<u8>,
    /// Whether a component is placed.
    placed: Vec<bool>,
    ghost cells: { vec_len needed ≡ count * count },
    ghost counts: { vec_len missing ≡ count },
    ghost places: { vec_len placed ≡ count },
}

impl Rounds {
    /// The rounds over these rows, with no component placed.
    pub(crate) fn of(alloc: Global, count: u8, needs: &[Needs]) -> Result<Rounds, AllocError>
        requires { AreNeeds count needs.now }
        ensures count { IfOk result (λ rounds. rounds.count ≡ count) }
        ensures rounds { IfOk result (λ rounds. IsRounds count needs.now [] rounds.needed.items rounds.missing.items rounds.placed.items) }
    {
        let mut rounds = Rounds::without_needs(alloc, count)?;
        for i in 0..needs.len() {
            rounds.add(needs, i);
        }
        Ok(rounds)
    }

    /// The rounds over no rows.
    fn without_needs(alloc: Global, count: u8) -> Result<Rounds, AllocError>
        ensures count { IfOk result (λ rounds. rounds.count ≡ count) }
        ensures rounds { IfOk result (λ rounds. IsRounds count [] [] rounds.needed.items rounds.missing.items rounds.placed.items) }
    {
        let wide = usize::from(count);
        let needed = vec![in alloc; false; wide * wide]?;
        let missing = vec![in alloc; 0; wide]?;
        let placed = vec![in alloc; false; wide]?;
        Ok(Rounds {
            count,
            needed,
            missing,
            placed,
        })
    }

    /// Adds a row to those before it, while no component is placed. One that is there already changes
    /// nothing.
    fn add(&mut self, needs: &[Needs], i: usize)
        requires there { i < length needs.now }
        requires needs { AreNeeds self.old.count needs.now }
        requires rounds { IsRounds self.old.count (take i needs.now) [] self.old.needed.items self.old.missing.items self.old.placed.items }
        ensures count { self.new.count ≡ self.old.count }
        ensures rounds { IsRounds self.old.count (take (i + 1) needs.now) [] self.new.needed.items self.new.missing.items self.new.placed.items }
    {
        let row = needs[i];
        let component = usize::from(row.component);
        let cell = component * usize::from(self.count) + usize::from(row.producer);
        if !self.needed[cell] {
            self.needed[cell] = true;
            self.missing[component] += 1;
        }
    }

    /// The first component that isn't placed and misses no producer.
    pub(crate) fn next(&self) -> Option<u8>
        ensures value { result ≡ first_free_component self.now.count self.now.missing.items self.now.placed.items }
        ensures within { IfSome result (λ component. component < self.now.count) }
    {
        for component in 0..self.count {
            let at = usize::from(component);
            if !self.placed[at] && self.missing[at] == 0 {
                return Some(component);
            }
        }
        None
    }

    /// Places a component: those that need it miss one producer less.
    pub(crate) fn place(&mut self, component: u8)
        requires within { component < self.old.count }
        requires misses { MissesEach self.old.count component self.old.needed.items self.old.missing.items }
        ensures count { self.new.count ≡ self.old.count }
        ensures needed { self.new.needed.items ≡ self.old.needed.items }
        ensures missing { IsLowered self.old.count component self.old.needed.items self.old.missing.items self.new.missing.items }
        ensures placed { self.new.placed.items ≡ slice_set self.old.placed.items component true }
    {
        self.placed[usize::from(component)] = true;
        let wide = usize::from(self.count);
        for at in 0..wide {
            if self.needed[at * wide + usize::from(component)] {
                self.missing[at] -= 1;
            }
        }
    }

    /// The components that aren't placed, ascending.
    pub(crate) fn others(&self, alloc: Global) -> Result<Vec<u8>, AllocError>
        ensures { IfOk result (λ others. others.items ≡ free_components self.now.count self.now.placed.items) }
    {
        let mut others = Vec::new(alloc);
        for component in 0..self.count {
            if !self.placed[usize::from(component)] {
                others.push(component)?;
            }
        }
        Ok(others)
    }
}
