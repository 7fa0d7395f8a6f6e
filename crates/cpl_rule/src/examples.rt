//! Definitions of `specs/`, evaluated.

ghost use Rattle.cpl_rule.specs.Examples.{RuleExamples};
ghost use Rattle.cpl_rule.specs.declared.moment.Moment.{Moment};

/// The definitions of rules over a block, evaluated on examples.
///
/// Source: this project's own.
pub fn rule_examples()
    ensures { (moment : Moment) → RuleExamples moment }
{}
