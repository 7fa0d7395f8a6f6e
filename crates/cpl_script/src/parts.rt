//! What a system is made of.

use cpl_base::Many;
use cpl_calendar::Cal;
use cpl_clock::Alarm;
use cpl_comp::Comp;
use cpl_match::Pair;
use cpl_sequence::Seq;
use cpl_smm::Weights;

/// All that was read of a configuration.
///
/// Source: this project's own.
#[derive(Drop)]
pub struct SystemParts {
    /// The components, in the order in which they are listed.
    pub comps: Many<Comp>,
    /// The run sequence over them.
    pub seq: Seq,
    /// Which exports feed which imports, in the order of the imports.
    pub pairs: Many<Pair>,
    /// The order in which components are initialised, by their places.
    pub init: Many<u8>,
    /// For each connector of the sequence the weights by which it carries, where that isn't a redistribution.
    pub weights: Many<Option<Weights>>,
    /// The calendar.
    pub cal: Cal,
    /// The moment of the start, in seconds of the calendar.
    pub start: i64,
    /// The alarms.
    pub alarms: Many<Alarm>,
    /// How many PETs there are.
    pub pets: u8,
}
