//! The world of a system in the serial engine.

use crate::linking::Buffers;
use cpl_base::Many;
use cpl_phase::LocalComp;

/// The components of a system on their whole grids, as they are before an operation.
///
/// Source: this project's own.
#[derive(Drop)]
pub struct World {
    pub(crate) comps: Many<LocalComp>,
    pub(crate) buffers: Buffers,
}
