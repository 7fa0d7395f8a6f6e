//! What holds of every order.

ghost use Rattle.cpl_init.specs.Waiting.{OrderLaws};

/// What holds of `initial_order`, for every count of components and all needs among them: where it is
/// an order, each component stands at one place, there it is the first listed one that doesn't stand
/// before and all whose needed producers do, and none waits. Else it is the components that wait: a
/// component waits where it is in some set of components each of which needs a member of the set.
///
/// Source: this project's own.
pub fn order_laws()
    ensures { OrderLaws }
{}
