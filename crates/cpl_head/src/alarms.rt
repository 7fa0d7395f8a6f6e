//! The alarms of a run, row by row.

ghost use Rattle.std.specs.Prelude.{◌≡◌, IfOk};
ghost use Rattle.cpl_base.specs.Gives.{Gives};
ghost use Rattle.cpl_head.specs.Alarms.{AreAlarms, IsNewAlarm, alarm_behind, alarms_of, is_taken};

use crate::alarm_words::{NamedAlarm, alarm_words};
use crate::fault::TableFault;
use crate::labels::rows_under;
use cpl_base::{Many, Text, is_name};
use cpl_clock::Alarm;
use cpl_config::{Items, Row};
use std::alloc::Global;

/// There are at most so many alarms.
const MOST_ALARMS: usize = 64;

/// The alarms of a run, in the order of their table.
#[derive(Debug, Drop)]
pub struct AlarmTable {
    /// Their names.
    pub names: Many<Text>,
    /// When each of them rings.
    pub alarms: Many<Alarm>,
}

/// Reads the alarms of a run from their table `alarms`; without the table there are none. There are at most 64.
///
/// A row `name every S from F` is an alarm that rings `F` seconds after the start and each `S` seconds from then on,
/// with `S` from 1 to 10^9 and `F` from 0 to 10^9; a row `name monthly` one that rings with each month of the
/// calendar. Each name is a name, and not that of another alarm.
///
/// Errors: `BadValue` with the line of the first row that isn't so, or that is the 65th. `Memory` where memory runs
/// out.
///
/// Source: ESMF Reference Manual, Alarm class; rows and refusals are this project's own.
#[tactic(auto, unfolding(crate::specs::Alarms::alarms_of))]
pub fn read_alarms(alloc: Global, items: &Items) -> Result<AlarmTable, TableFault>
    ensures answer { Gives TableFault.Memory (λ table. table) result (alarms_of items.now) }
    ensures alarms { IfOk result AreAlarms }
{
    let mut names = Vec::new(alloc);
    let mut alarms = Vec::new(alloc);
    for row in rows_under(items, b"alarms") {
        let NamedAlarm { name, alarm } = read_alarm(alloc, names.as_slice(), row)?;
        names.push(name)?;
        alarms.push(alarm)?;
    }
    Ok(AlarmTable {
        names: Many::of(names),
        alarms: Many::of(alarms),
    })
}

/// The alarm of a row, behind alarms of these names.
fn read_alarm(alloc: Global, names: &[Text], row: &Row) -> Result<NamedAlarm, TableFault>
    ensures gives { Gives TableFault.Memory (λ named. named) result (alarm_behind names.now row.now) }
    ensures new { IfOk result (IsNewAlarm names.now) }
{
    let line = row.line;
    let Some((name, words)) = row.words.items().split_first() else {
        return Err(TableFault::BadValue { line });
    };
    if !is_name(name.bytes()) {
        return Err(TableFault::BadValue { line });
    }
    let Some(alarm) = alarm_words(words) else {
        return Err(TableFault::BadValue { line });
    };
    if is_taken(names, name.bytes()) || names.len() >= MOST_ALARMS {
        return Err(TableFault::BadValue { line });
    }
    Ok(NamedAlarm {
        name: name.copy(alloc)?,
        alarm,
    })
}

/// Whether a name is one of these.
fn is_taken(names: &[Text], name: &[u8]) -> bool
    ensures { result ≡ is_taken names.now name.now }
{
    names.iter().any(|other| other.bytes() == name)
}
