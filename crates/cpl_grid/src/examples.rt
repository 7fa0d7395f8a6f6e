//! Definitions of `specs/`, evaluated.

ghost use Rattle.cpl_grid.specs.Examples.{GridExamples};

/// The definitions of grids and their owners, evaluated on examples.
pub fn grid_examples()
    ensures { GridExamples }
{}
