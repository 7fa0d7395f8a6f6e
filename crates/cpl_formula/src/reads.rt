//! The reads of a formula, each once, in the order in which they first stand.

ghost use Rattle.std.specs.Prelude.{◌≡◌, IfOk, length, ◌+◌, ◌<◌, ◌≤◌, ◌^◌};
ghost use Rattle.std.specs.List.{position_or_len};
ghost use Rattle.cpl_formula.specs.Reads.{with_read, same_read};

use crate::formula::Read;
use indexmap::IndexSet;
use std::alloc::AllocFailed;

/// Notes a read, and answers its place.
pub fn note(reads: &mut IndexSet<Read>, read: Read) -> Result<u32, AllocFailed<Read>>
    requires { length reads.old.keys < 2 ^ 32 }
    ensures reads { IfOk result (λ place. reads.new.keys ≡ with_read reads.old.keys read) }
    ensures few { IfOk result (λ place. length reads.new.keys ≤ length reads.old.keys + 1) }
    ensures place { IfOk result (λ place. place ≡ position_or_len (same_read read) reads.old.keys) }
{
    let (place, _) = reads.insert_full(read)?;
    Ok(place as u32)
}
