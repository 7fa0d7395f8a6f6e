//! The log of one PET.

ghost use Rattle.std.specs.Prelude.{◌≡◌};

use crate::row::TraceRow;
use cpl_base::Memory;
use std::alloc::Global;
use std::marker::Model;

/// The rows that a PET has logged, with the sums over its own cells. Contracts see the rows and the room for more.
///
/// Source: this project's own.
#[derive(Drop)]
pub struct PetLog {
    /// The rows so far.
    rows: Vec<TraceRow>,
    /// How many more there is room for.
    room: u32,
}

impl Model for PetLog {
    ghost use Rattle.std.specs.Prelude.{◌+◌, ◌≤◌, vec_capacity, vec_len};
    ghost use Rattle.cpl_trace.specs.Logs.{Log};

    ghost Value = { Log };

    ghost view = { λ l. record { rows = l.rows.items; room = l.room } };

    ghost invariant = { λ l. vec_len l.rows + l.room ≤ vec_capacity l.rows };
}

impl PetLog {
    ghost use Rattle.std.specs.Prelude.{◌≡◌, ◌+◌, ◌<◌, [], ◌∷◌, ◌++◌, IfOk};
    ghost use Rattle.cpl_trace.specs.Logs.{Log};

    /// A log without rows, with room for so many. All memory is taken here.
    ///
    /// Errors: `Memory` where memory runs out.
    ///
    /// Source: this project's own.
    pub fn reserve(alloc: Global, rows: u32) -> Result<PetLog, Memory>
        ensures { IfOk result (λ log. log ≡ record { rows = []; room = rows }) }
    {
        Ok(PetLog {
            rows: Vec::with_capacity(alloc, rows as usize)?,
            room: rows,
        })
    }

    /// Logs one row more, behind all others. Takes no memory.
    ///
    /// Source: this project's own.
    pub fn push(&mut self, row: TraceRow)
        requires { 0 < self.old.room }
        ensures rows { self.new.rows ≡ self.old.rows ++ row ∷ [] }
        ensures room { self.new.room + 1 ≡ self.old.room }
    {
        // The room was taken when the log was made.
        self.rows.push(row).unwrap();
        self.room -= 1;
    }

    /// The rows so far, lent.
    ///
    /// Source: this project's own.
    pub fn rows(&self) -> &[TraceRow]
        ensures { result.now ≡ self.now.rows }
    {
        self.rows.as_slice()
    }

    /// How many more rows there is room for.
    ///
    /// Source: this project's own.
    pub fn room(&self) -> u32
        ensures { result ≡ self.now.room }
    {
        self.room
    }
}
