//! A caller that needs what is promised of heads and of alarms: a clock over the run, which alarms ring, and the run
//! sequence.

ghost use Rattle.std.specs.Prelude.{IfOk};
ghost use Rattle.cpl_head.specs.Alarms.{AreAlarms};
ghost use Rattle.cpl_head.specs.Head.{IsHead};
ghost use Rattle.cpl_runseq.specs.Asked.{AreNames};

use crate::files::items_of;
use cpl_base::{Many, Memory, Text};
use cpl_calendar::end_of;
use cpl_clock::Clock;
use cpl_config::Row;
use cpl_head::{AlarmTable, Head, head_examples, read_alarms, read_head};
use cpl_runseq::{Seq, SeqFault, SeqName, read_sequence};
use std::alloc::Global;
use std::process::Abort;
use std::test::Fail;

/// The clock of a run with a stop: one step long, where it has no step of its own.
fn clock_of(head: &Head) -> Option<Clock>
    requires { IsHead head.now }
{
    let span = head.span?;
    let step = head.time_step.unwrap_or(span);
    Clock::new(head.start, head.start + span, step).ok()
}

/// How many alarms ring so many seconds after the start, none past the calendar's end.
fn ringing(head: &Head, table: &AlarmTable, seconds: u32) -> usize
    requires head { IsHead head.now }
    requires alarms { AreAlarms table.now }
{
    let seconds = i64::from(seconds);
    if seconds >= end_of(head.cal) - head.start {
        return 0;
    }
    let mut count = 0usize;
    for alarm in table.alarms.items() {
        if alarm.rings_at(head.cal, head.start, seconds) {
            count += 1;
        }
    }
    count
}

/// The run sequence of rows, over these components.
fn sequence_of(alloc: Global, head: &Head, rows: &[Row], names: &[SeqName]) -> Result<Seq, SeqFault>
    requires head { IsHead head.now }
    requires names { AreNames names.now }
{
    let room = end_of(head.cal) - head.start;
    read_sequence(alloc, rows, names, head.span, head.time_step, room)
}

/// A file with a stop, a step and three alarms.
const TIMED: &[u8] = b"EARTH_component_list: A
stopTime: 2000-02-01T00:00:00
timeStep: 86400
alarms::
day every 86400 from 0
noon every 86400 from 43200
month monthly
::
runSeq::
@*
A
@
::
";

/// The component of that file, with one phase.
fn names(alloc: Global) -> Result<Vec<SeqName>, Memory>
    ensures { IfOk result (λ names. AreNames names.items) }
{
    let mut phases = Vec::new(alloc);
    phases.push(Text::of(alloc, b"run")?)?;
    let name = SeqName {
        name: Text::of(alloc, b"A")?,
        phases: Many::of(phases),
        substep: None,
    };
    let mut names = Vec::new(alloc);
    names.push(name)?;
    Ok(names)
}

#[test]
fn clock_and_sequence(rt: HostRuntime) -> Result<(), Fail> {
    let items = items_of(rt.alloc(), TIMED)?;
    let head = read_head(rt.alloc(), &items)?;
    let names = names(rt.alloc())?;
    let rows = items.table(b"runSeq").unwrap_or(&[]);
    let sequence = sequence_of(rt.alloc(), &head, rows, names.as_slice())?;
    assert_eq!(rt; sequence.op_count(), 31);
    let clock = clock_of(&head).ok_or("no clock")?;
    assert!(rt; clock.is_at(63_082_281_600));
    Ok(())
}

#[test]
fn alarms_ring(rt: HostRuntime) -> Result<(), Fail> {
    head_examples();
    let items = items_of(rt.alloc(), TIMED)?;
    let head = read_head(rt.alloc(), &items)?;
    let alarms = read_alarms(rt.alloc(), &items)?;
    for (seconds, wanted) in [(0, 2), (43_200, 1), (43_201, 0), (2_678_400, 2)] {
        assert_eq!(rt; ringing(&head, &alarms, seconds), wanted, "at {seconds}");
    }
    Ok(())
}
