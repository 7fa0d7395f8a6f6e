//! Where a run stops.

use cpl_base::Many;
use cpl_script::{CompEnd, Found};

/// Where a run stops that has a fault: the operation of its fault, and what had ended before.
#[derive(Drop)]
pub(crate) struct Stop {
    pub op: u64,
    pub comps: Many<CompEnd>,
    pub found: Found,
}
