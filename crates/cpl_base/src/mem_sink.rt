//! A stream that goes to memory, for tests and for a caller that wants the text.

ghost use Rattle.std.specs.Prelude.{◌≡◌, ◌≤◌, ℕ, [], IfOk, vec_capacity};

use crate::memory::Memory;
use crate::sink::{Sink, SinkFailed};
use std::alloc::Global;

/// Bytes in memory, up to a room that is set when it is made. It tells its bytes.
#[derive(Debug, Drop)]
pub struct MemSink {
    held: Vec<u8>,
    room: usize,
    faults: u64,
    ghost reserved: { room ≤ vec_capacity held },
}

impl MemSink {
    ghost use Rattle.cpl_base.specs.InMemory.{bytes_of, room_of, sink_faults_of};

    /// A sink without bytes, that takes so many. All its memory is taken here.
    pub fn new(alloc: Global, room: usize) -> Result<MemSink, Memory>
        ensures empty { IfOk result (λ sink. bytes_of sink ≡ []) }
        ensures room { IfOk result (λ sink. room_of sink ≡ room) }
        ensures faults { IfOk result (λ sink. sink_faults_of sink ≡ 0) }
    {
        Ok(MemSink {
            held: Vec::with_capacity(alloc, room)?,
            room,
            faults: 0,
        })
    }

    /// The bytes that it got, lent.
    pub fn bytes(&self) -> &[u8]
        ensures { result.now ≡ bytes_of self.now }
    {
        self.held.as_slice()
    }
}

impl Sink for MemSink {
    ghost use Rattle.std.specs.Prelude.{◌≡◌, ◌-◌, ◌≤◌, ◌<◌, ◌↔◌, length, min, take, Some, IfOk, IsErr, OnOk, OnErr};
    ghost use Rattle.cpl_base.specs.InMemory.{bytes_of, room_of};
    ghost use Rattle.cpl_base.specs.Outside.{Rises, bytes_after};

    ghost sent = { λ s. Some (bytes_of s) };

    ghost faults = { λ s. s.faults };

    fn write(&mut self, bytes: &[u8]) -> Result<usize, SinkFailed>
        ensures taken { IfOk result (λ n. (n ≤ length bytes.now) × (0 < length bytes.now → 0 < n)) }
        ensures ok { IfOk result (λ n. Some (bytes_of self.new) ≡ bytes_after (Some (bytes_of self.old)) (take n bytes.now)) }
        ensures quiet { OnOk result (self.new.faults ≡ self.old.faults) }
        ensures err { OnErr result (Some (bytes_of self.new) ≡ Some (bytes_of self.old)) }
        ensures counts { self.old.faults ≤ self.new.faults }
        ensures rises { OnErr result (Rises self.old.faults self.new.faults) }

        // It takes as much of the piece as there is room for, and fails exactly where there is none and the piece isn't empty.
        ensures room { room_of self.new ≡ room_of self.old }
        ensures most { IfOk result (λ n. n ≡ min (room_of self.old - length (bytes_of self.old)) (length bytes.now)) }
        ensures full { IsErr result ↔ ((room_of self.old ≤ length (bytes_of self.old)) × (0 < length bytes.now)) }
    {
        let left = self.room.saturating_sub(self.held.len());
        let taken = left.min(bytes.len());
        if taken == 0 && !bytes.is_empty() {
            self.faults = self.faults.saturating_add(1);
            return Err(SinkFailed);
        }
        // The room was taken when the sink was made.
        self.held.extend_from_slice(&bytes[..taken]).unwrap();
        Ok(taken)
    }
}
