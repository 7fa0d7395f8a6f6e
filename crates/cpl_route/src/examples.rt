//! Definitions of `specs/`, evaluated.

ghost use Rattle.cpl_route.specs.Examples.{RouteExamples};

/// The definitions of routes, evaluated on examples.
///
/// Source: this project's own.
pub fn route_examples()
    ensures { RouteExamples }
{}
