//! Where the rows of sorted factors begin, and a row.

ghost use Rattle.std.specs.Prelude.{◌≡◌, ◌+◌, ◌<◌, ◌≤◌, IfOk, drop, length, map, slice_index};
ghost use Rattle.std.specs.List.{range_with_len};
ghost use Rattle.cpl_smm.specs.Kept.{count_upto, row_between};
ghost use Rattle.cpl_smm.specs.Records.{most_records};

use cpl_base::Memory;
use std::alloc::Global;

/// How many factors have at most each destination cell, from 0 on: where the row of the next cell begins. The
/// factors' destination cells ascend. Takes time in the cells and the factors.
pub(crate) fn starts_of(alloc: Global, dsts: &[u32], dst_cells: u32) -> Result<Vec<u32>, Memory>
    requires { length dsts.now ≤ most_records }
    ensures { IfOk result (λ starts. starts.items ≡ map (λ dst. count_upto dst dsts.now) (range_with_len 0 (dst_cells + 1))) }
{
    let mut starts = Vec::with_capacity(alloc, dst_cells as usize + 1)?;
    let mut place = 0;
    for dst in 0..u64::from(dst_cells) + 1 {
        place = past(dsts, place, dst);
        starts.push(place as u32)?;
    }
    Ok(starts)
}

/// The first place from this one on at which the destination cell isn't at most this.
fn past(dsts: &[u32], from: usize, dst: u64) -> usize
    requires { from ≤ length dsts.now }
    ensures value { result ≡ from + count_upto dst (drop from dsts.now) }
    ensures within { result ≤ length dsts.now }
{
    for place in from..dsts.len() {
        if u64::from(dsts[place]) > dst {
            return place;
        }
    }
    dsts.len()
}

/// The entries from one start to the next.
#[inline]
pub(crate) fn row_between<'a>(
    starts: &[u32],
    entries: &'a [(u32, i64)],
    k: usize,
) -> &'a [(u32, i64)]
    requires place { k + 1 < length starts.now }
    requires ascending { slice_index starts.now k ≤ slice_index starts.now (k + 1) }
    requires within { slice_index starts.now (k + 1) ≤ length entries.now }
    ensures { result.now ≡ row_between starts.now entries.entry.now k }
{
    &entries[start_at(starts, k)..start_at(starts, k + 1)]
}

/// A start.
#[inline]
fn start_at(starts: &[u32], k: usize) -> usize
    requires { k < length starts.now }
    ensures { result ≡ slice_index starts.now k }
{
    starts[k] as usize
}
