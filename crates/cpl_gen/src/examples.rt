//! The definition of a configuration, evaluated on seeds.

ghost use Rattle.cpl_gen.specs.Examples.{ConfigExamples};

/// The numbers that seeds give.
///
/// Source: this project's own.
pub fn config_examples()
    ensures { ConfigExamples }
{}
