//! Phases and start rules of a component, carried out over a block of its grid.
#![tactic(auto)]

mod averaging;
mod beginning;
mod checking;
mod filling;
mod importing;
mod keeping;
mod keeping_all;
mod kept_checks;
mod local;
mod merging;
mod opening;
mod putting;
mod refreshing;
mod rooms;
mod running;
mod showing;
mod sites;
mod spare;
mod starting;
mod updating;
mod working;

pub use averaging::average_all;
pub use checking::check_ranges;
pub use filling::assign_all;
pub use keeping_all::keep_all;
pub use kept_checks::check_averages;
pub use local::{Area, LocalComp};
pub use sites::{Sites, sites_of};
pub use spare::Spare;
pub use starting::{start_all, started_places};
pub use updating::carry_out;
