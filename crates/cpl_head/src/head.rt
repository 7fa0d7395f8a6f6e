//! What a file says of a run as a whole.

ghost use Rattle.std.specs.Prelude.{IfOk};
ghost use Rattle.cpl_base.specs.Gives.{Gives};
ghost use Rattle.cpl_head.specs.Head.{IsHead, head_of};

use crate::components::components_in;
use crate::fault::HeadFault;
use crate::labels::{check_table, needed_value};
use crate::times::{calendar_in, span_in, start_in, time_step_in};
use cpl_base::{Many, Text};
use cpl_calendar::Cal;
use cpl_config::Items;
use std::alloc::Global;

/// What a file says of a run as a whole. Times are in seconds.
#[derive(Debug, Drop)]
pub struct Head {
    /// The names of the components, in the order of their list.
    pub components: Many<Text>,
    /// The calendar of the run.
    pub cal: Cal,
    /// The moment at which the run starts: the seconds since the beginning of 0001-01-01 in the calendar.
    pub start: i64,
    /// How long the run lasts: from the start to the stop, where a stop is given.
    pub span: Option<i64>,
    /// The run's own step, where it has one.
    pub time_step: Option<i64>,
}

/// Reads what the items of a file say of the run as a whole. Time is linear in the list of components.
///
/// `EARTH_component_list` has the names of one to 32 components. `calendar` is `gregorian`, where it isn't given,
/// `noleap` or `360day`. `startTime` and `stopTime` are times of the form `YYYY-MM-DDThh:mm:ss`; without the first
/// a run starts with the year 2000, without the second the run sequence says how long it lasts. `timeStep` is a
/// number of seconds from 1 to 10^9. Each of these values is one word. The table `runSeq` must be there; its rows
/// are no matter of this call.
///
/// Errors: the first in this order. `MissingLabel` of `EARTH_component_list`, then of `runSeq`; `BadValue` of the
/// list where it is empty, or a word of it is no name or stands twice; `TooManyComponents`; `BadValue` of the
/// calendar; `BadValue` of the start where it isn't one word, else `BadTime`, `YearRange` or `NoSuchDay`; the same
/// of the stop, then `StopNotAfter` where it isn't after the start; `BadValue` of the step. `Memory` where memory
/// runs out.
///
/// Source: NUOPC Layer Reference, the driver's clock; labels, ranges and refusals are this project's own.
#[tactic(auto, unfolding(crate::specs::Head::head_of))]
pub fn read_head(alloc: Global, items: &Items) -> Result<Head, HeadFault>
    ensures answer { Gives HeadFault.Memory (λ head. head) result (head_of items.now) }
    ensures head { IfOk result IsHead }
{
    let list = needed_value(alloc, items, b"EARTH_component_list")?;
    check_table(alloc, items, b"runSeq")?;
    let components = components_in(alloc, list)?;
    let cal = calendar_in(items.value(b"calendar"))?;
    let start = start_in(cal, items.value(b"startTime"))?;
    let span = span_in(cal, start, items.value(b"stopTime"))?;
    let time_step = time_step_in(items.value(b"timeStep"))?;
    Ok(Head {
        components,
        cal,
        start,
        span,
        time_step,
    })
}
