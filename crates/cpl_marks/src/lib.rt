//! What a component holds beside its values: clock, stamps and number of runs, and what is checked of them.
#![tactic(auto)]

mod checking;
mod examples;
mod fault;
mod looking;
mod marks;
mod places;
mod plan;
mod stamping;
mod turn;

pub use checking::check_marks;
pub use examples::marks_examples;
pub use fault::{PhaseFault, note};
pub use marks::{Marks, first_marks};
pub use places::export_places;
pub use plan::{CheckedImport, StampPlan, stamp_plan};
pub use stamping::{end_step, stamp_start};
pub use turn::Turn;
