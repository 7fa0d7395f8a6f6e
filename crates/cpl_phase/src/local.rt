//! A component on a block of its grid: the whole grid, or what one PET owns.

use crate::sites::Sites;
use crate::spare::Spare;
use cpl_base::Many;
use cpl_block::{Frame, Ring};
use cpl_field::Field;
use cpl_marks::{Marks, StampPlan};
use cpl_mediator::Accum;
use cpl_rule::Demand;

/// A block and its ring: the block's cells with their places, and where the ring is filled from.
///
/// Source: this project's own.
#[derive(Drop)]
pub struct Area {
    /// The ring.
    pub ring: Ring,
    /// The cells and their places.
    pub sites: Sites,
}

/// A component on a block of its grid: its clock, its stamps, and the values of its fields at the block's cells. It is made by
/// `LocalComp::new`; its calls keep what holds of it.
///
/// Source: this project's own.
#[derive(Drop)]
pub struct LocalComp {
    /// The block, with a ring as wide as the component's rules read.
    pub frame: Frame,
    /// What the component's rules ask for.
    pub demand: Demand,
    /// The block's cells, and its ring.
    pub area: Area,
    /// Whether the field of a place is an import that has an export.
    pub connected: Many<bool>,
    /// What the runs of each phase check and stamp.
    pub plans: Many<StampPlan>,
    /// The places of the exports.
    pub exports: Many<u16>,
    /// The places of the fields with a start rule.
    pub started: Many<u16>,
    /// Clock, stamps and number of runs.
    pub marks: Marks,
    /// The fields of the component, and behind them those with the columns, the rows and the sequence indices of the cells.
    pub fields: Many<Field>,
    /// What is kept for each field.
    pub accums: Many<Accum>,
    /// The values of each field at the block's cells, one behind the other.
    pub shown: Many<Field>,
    /// What new values are worked out in.
    pub spare: Spare,
}
