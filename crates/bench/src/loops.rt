//! A run sequence of many top loops, one second each.

ghost use Rattle.std.specs.Prelude.{◌≤◌, ◌≡◌, None, length, IfOk};
ghost use Rattle.cpl_runseq.specs.Asked.{HasFewPhases};

use cpl_base::{Many, Memory, Text};
use cpl_config::Row;
use cpl_runseq::{Seq, SeqFault, SeqName, read_sequence};
use std::alloc::Global;

/// How long a run may last, in seconds.
const ROOM: i64 = 1_099_511_627_776;

/// The sequence of so many loops, in each of which the one component runs once.
pub fn sequence(alloc: Global, loops: u64) -> Result<Seq, SeqFault> {
    let rows = rows(alloc, loops)?;
    let names = [component(alloc)?];
    read_sequence(alloc, rows.as_slice(), &names, None, None, ROOM)
}

/// The rows of so many loops.
fn rows(alloc: Global, loops: u64) -> Result<Vec<Row>, Memory> {
    let mut rows = Vec::new(alloc);
    for _ in 0..loops {
        rows.push(row(alloc, b"@1:1")?)?;
        rows.push(row(alloc, b"A")?)?;
        rows.push(row(alloc, b"@")?)?;
    }
    Ok(rows)
}

/// A row of this word.
fn row(alloc: Global, word: &[u8]) -> Result<Row, Memory> {
    let mut words = Vec::new(alloc);
    words.push(Text::of(alloc, word)?)?;
    Ok(Row {
        line: 1,
        words: Many::of(words),
    })
}

/// The component, with its one phase.
fn component(alloc: Global) -> Result<SeqName, Memory>
    ensures few { IfOk result HasFewPhases }
    ensures some { IfOk result (λ name. 1 ≤ length name.phases) }
    ensures plain { IfOk result (λ name. name.substep ≡ None) }
{
    let mut phases = Vec::new(alloc);
    phases.push(Text::of(alloc, b"run")?)?;
    Ok(SeqName {
        name: Text::of(alloc, b"A")?,
        phases: Many::of(phases),
        substep: None,
    })
}
