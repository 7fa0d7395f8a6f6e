//! Definitions of `specs/`, evaluated.

ghost use Rattle.cpl_comp.specs.declared.component.Comp.{Comp};
ghost use Rattle.cpl_comp.specs.declared.component.Field.{Field};
ghost use Rattle.cpl_comp.specs.declared.component.Phase.{Phase};
ghost use Rattle.cpl_marks.specs.Examples.{MarksExamples};

/// The definitions of plans, marks and faults, evaluated on a model and a mediator.
///
/// Source: this project's own.
pub fn marks_examples()
    ensures { (comp : Comp) (phase : Phase) (field : Field) → MarksExamples comp phase field }
{}
