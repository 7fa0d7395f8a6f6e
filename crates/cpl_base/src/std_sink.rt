//! Standard output and standard error. What became of the bytes is nothing that a proof can know, but that they were
//! handed on.

ghost use Rattle.std.specs.Prelude.{◌≡◌};

use crate::sink::{Sink, SinkFailed};
use std::io::Write;

/// A stream of the process, written without a buffer of its own. It tells nothing of its bytes.
#[derive(Debug, Drop)]
pub struct StdSink<W: Write> {
    stream: W,
    faults: u64,
}

impl<W: Write> StdSink<W> {
    /// A sink over a stream, as the runtime's `stdout()` or `stderr()`.
    pub fn new(stream: W) -> StdSink<W>
        ensures { ⟦<StdSink<W> as Sink>⟧.faults result ≡ 0 }
    {
        StdSink { stream, faults: 0 }
    }
}

impl<W: Write> Sink for StdSink<W> {
    ghost use Rattle.std.specs.Prelude.{◌≡◌, ◌≤◌, ◌<◌, length, take, IfOk, OnOk, OnErr};
    ghost use Rattle.std.specs.Io.KnownBytes.{Appends, Keeps};
    ghost use Rattle.cpl_base.specs.Outside.{Rises, bytes_after};
    ghost use Rattle.cpl_base.specs.Streams.{untold_bytes, stream_of};

    ghost sent = { λ _. untold_bytes };

    ghost faults = { λ s. s.faults };

    fn write(&mut self, bytes: &[u8]) -> Result<usize, SinkFailed>
        ensures taken { IfOk result (λ n. (n ≤ length bytes.now) × (0 < length bytes.now → 0 < n)) }
        ensures ok { IfOk result (λ n. untold_bytes ≡ bytes_after untold_bytes (take n bytes.now)) }
        ensures quiet { OnOk result (self.new.faults ≡ self.old.faults) }
        ensures err { OnErr result (untold_bytes ≡ untold_bytes) }
        ensures counts { self.old.faults ≤ self.new.faults }
        ensures rises { OnErr result (Rises self.old.faults self.new.faults) }

        // The stream took just the bytes that are answered for, or none.
        ensures handed { IfOk result (λ n. Appends (W.contents (stream_of self.old)) (W.contents (stream_of self.new)) (take n bytes.now)) }
        ensures kept { OnErr result (Keeps (W.contents (stream_of self.old)) (W.contents (stream_of self.new))) }
    {
        match self.stream.write(bytes) {
            Ok(taken) if taken > 0 || bytes.is_empty() => Ok(taken),
            // A stream that takes nothing of a piece is no better than one that fails.
            _ => {
                self.faults = self.faults.saturating_add(1);
                Err(SinkFailed)
            }
        }
    }
}
