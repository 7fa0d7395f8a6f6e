//! Where a run's texts go.
//!
//! The sinks that exist stand in files of their own: one in memory, one over real streams.

ghost use Rattle.std.specs.Prelude.{◌≡◌, ◌<◌, ◌≤◌, ℕ, length, take, OnOk, OnErr};
ghost use Rattle.cpl_base.specs.Outside.{Rises, bytes_after};

/// A write took nothing, and the sink's count of faults rose.
#[derive(Clone, Copy, Debug, PartialEq, Eq)]
pub struct SinkFailed;

/// A stream of bytes that goes out.
///
/// Contracts see the bytes so far, where the sink tells them, and a count of faults that never falls.
pub trait Sink {
    ghost use Rattle.std.specs.Prelude.{◌≡◌, ◌⊎◌, ◌≤◌, ◌<◌, ℕ, List, length, take, Option, IfOk, OnOk, OnErr};
    ghost use Rattle.cpl_base.specs.Outside.{Rises, bytes_after};

    /// The bytes so far, where they are told.
    ghost sent: { Self → Option (List ℕ) };

    /// How many faults there were so far.
    ghost faults: { Self → ℕ };

    /// Takes bytes from the front of a piece, and answers how many: one at least, unless the piece is
    /// empty.
    ///
    /// Errors: `SinkFailed` where nothing could be taken.
    fn write(&mut self, bytes: &[u8]) -> Result<usize, SinkFailed>
        ensures taken { IfOk result (λ n. (n ≤ length bytes.now) × (0 < length bytes.now → 0 < n)) }
        ensures ok { IfOk result (λ n. sent self.new ≡ bytes_after (sent self.old) (take n bytes.now)) }
        ensures quiet { OnOk result (faults self.new ≡ faults self.old) }
        ensures err { OnErr result (sent self.new ≡ sent self.old) }
        ensures counts { faults self.old ≤ faults self.new }
        ensures rises { OnErr result (Rises (faults self.old) (faults self.new)) };
}

/// Writes all the bytes, piece by piece, and never hands over an empty piece. Takes no memory.
///
/// Errors: `SinkFailed` where a write failed; then a proper prefix of the bytes was written.
pub fn write_all<S: Sink>(sink: &mut S, bytes: &[u8]) -> Result<(), SinkFailed>
    ensures ok { OnOk result (S.sent sink.new ≡ bytes_after (S.sent sink.old) bytes.now) }
    ensures quiet { OnOk result (S.faults sink.new ≡ S.faults sink.old) }
    ensures err { OnErr result ((n : ℕ) × (n < length bytes.now) × (S.sent sink.new ≡ bytes_after (S.sent sink.old) (take n bytes.now))) }
    ensures counts { S.faults sink.old ≤ S.faults sink.new }
    ensures rises { OnErr result (Rises (S.faults sink.old) (S.faults sink.new)) }
{
    let mut rest = bytes;
    while !rest.is_empty() {
        let taken = sink.write(rest)?;
        let (_, after) = rest.split_at(taken);
        rest = after;
    }
    Ok(())
}
