//! What a text says of a system, but for its weights.

use cpl_base::Many;
use cpl_calendar::Cal;
use cpl_clock::Alarm;
use cpl_comp::Comp;
use cpl_match::Pair;
use cpl_sequence::Seq;

/// What a text says of a system. The weights of its connectors stand in further files.
#[derive(Drop)]
pub(crate) struct Outline {
    /// The components, in the order of their list.
    pub comps: Many<Comp>,
    /// How many PETs there are.
    pub pets: u8,
    /// The run sequence over the components.
    pub seq: Seq,
    /// Which exports feed which imports, in the order of the imports.
    pub pairs: Many<Pair>,
    /// The order in which components are initialised, by their places.
    pub init: Many<u8>,
    /// The calendar.
    pub cal: Cal,
    /// The moment of the start, in seconds of the calendar.
    pub start: i64,
    /// The alarms.
    pub alarms: Many<Alarm>,
}
