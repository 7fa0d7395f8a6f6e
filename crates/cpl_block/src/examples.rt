//! Definitions of `specs/`, evaluated.

ghost use Rattle.cpl_block.specs.Examples.{BlockExamples};

/// The definitions of blocks with a ring, evaluated on examples.
pub fn block_examples()
    ensures { BlockExamples }
{}
