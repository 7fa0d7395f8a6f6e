//! The order in which components are initialised.

ghost use Rattle.std.specs.Prelude.{IfErr, IfOk};
ghost use Rattle.cpl_init.specs.Gives.{Gives};
ghost use Rattle.cpl_init.specs.Orders.{AreNeeds, initial_order};
ghost use Rattle.cpl_init.specs.Waiting.{IsInitialOrder, IsWaitingFault};

use crate::components::Components;
use crate::fault::InitFault;
use crate::needs::Needs;
use crate::rounds::Rounds;
use std::alloc::Global;

/// The order in which the components 0, 1 and so on below `components` are initialised: at each place
/// stands the first one that doesn't stand before and all whose needed producers do. Every number in
/// `needs` is below `components`. A row may come again, and a component may need itself. Time is linear
/// in the rows, and beside these a walk over the components for each of them.
///
/// Errors: `Waiting`, exactly where there are components each of which needs one of them, with the
/// greatest such set, ascending. `Memory` where memory runs out.
///
/// Source: NUOPC Layer Reference, initialisation in the order of dependencies; which of several comes
/// first, and the components that wait, are this project's own.
pub fn order(alloc: Global, components: u8, needs: &[Needs]) -> Result<Components, InitFault>
    requires { AreNeeds components needs.now }
    ensures answer { Gives result (initial_order components needs.now) }
    ensures order { IfOk result (IsInitialOrder components needs.now) }
    ensures waiting { IfErr result (IsWaitingFault components needs.now) }
{
    order_by_rounds(alloc, components, needs)
}

/// The order, a component in each round.
fn order_by_rounds(alloc: Global, components: u8, needs: &[Needs]) -> Result<Components, InitFault>
    requires { AreNeeds components needs.now }
    ensures { Gives result (initial_order components needs.now) }
{
    let mut rounds = Rounds::of(alloc, components, needs)?;
    let mut order = Vec::with_capacity(alloc, usize::from(components))?;
    for _round in 0..components {
        let Some(next) = rounds.next() else {
            let waiting = Components::of(rounds.others(alloc)?);
            return Err(InitFault::Waiting {
                components: waiting,
            });
        };
        rounds.place(next);
        order.push(next)?;
    }
    Ok(Components::of(order))
}
