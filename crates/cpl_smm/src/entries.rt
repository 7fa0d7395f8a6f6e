//! Factors of a file whose records aren't in the order of their cells: numbered, and sorted.

ghost use Rattle.std.specs.Prelude.{◌≡◌, IfOk, OnOk, length};
ghost use Rattle.std.specs.List.Sorted.{IsNonDecreasingBy, IsPermutation, IsStableByKey};
ghost use Rattle.std.specs.Ordering.{nat_cmp};
ghost use Rattle.cpl_smm.specs.Kept.{entry_of, lesser, least_repeat, numbered, pair_number, pair_of, repeat_number};

use cpl_base::Memory;
use std::alloc::Global;

/// So many source cells there may be, and one more.
const WIDE: u64 = 0x1_0000_0000;

/// A factor with the number of its record.
#[derive(Clone, Copy)]
pub(crate) struct KeptFactor {
    /// Its destination cell.
    pub dst: u32,
    /// Its source cell.
    pub src: u32,
    /// Its weight, in billionths.
    pub weight: i64,
    /// The number of its record, from 1.
    pub number: u64,
}

impl KeptFactor {
    /// Its source cell and its weight, as a row has them.
    #[inline]
    pub(crate) fn entry(&self) -> (u32, i64)
        ensures { result ≡ entry_of self.now }
    {
        (self.src, self.weight)
    }
}

/// A destination cell and a source cell as one number, by which factors are compared.
#[inline]
pub(crate) fn pair_number(dst: u32, src: u32) -> u64
    ensures { result ≡ pair_number dst src }
{
    u64::from(dst) * WIDE + u64::from(src)
}

/// Numbers factors in the order of their records.
pub(crate) fn numbered(
    alloc: Global,
    dsts: &[u32],
    entries: &[(u32, i64)],
) -> Result<Vec<KeptFactor>, Memory>
    requires { length dsts.now ≡ length entries.now }
    ensures { IfOk result (λ factors. factors.items ≡ numbered 1 dsts.now entries.now) }
{
    let mut factors = Vec::with_capacity(alloc, dsts.len())?;
    for k in 0..dsts.len() {
        factors.push(KeptFactor {
            dst: dsts[k],
            src: entries[k].0,
            weight: entries[k].1,
            number: k as u64 + 1,
        })?;
    }
    Ok(factors)
}

/// Sorts factors by their cells; those of equal cells stay in their order.
pub(crate) fn sort_factors(factors: &mut Vec<KeptFactor>) -> Result<(), Memory>
    ensures moved { IsPermutation factors.old.items factors.new.items }
    ensures sorted { OnOk result (IsNonDecreasingBy (λ factor. pair_of factor) factors.new.items) }
    ensures stable { IsStableByKey (λ factor. pair_of factor) nat_cmp factors.old.items factors.new.items }
{
    factors.sort_by_key(|factor| pair_number(factor.dst, factor.src))?;
    Ok(())
}

/// The number of the first record, in the order of the file, that has the two cells of an earlier one, if
/// there is one. The factors are sorted by their cells, and those of equal cells by their numbers.
pub(crate) fn least_repeat(factors: &[KeptFactor]) -> Option<u64>
    ensures { result ≡ least_repeat factors.now }
{
    let [first, rest @ ..] = factors else {
        return None;
    };
    let mut before = pair_number(first.dst, first.src);
    let mut least = None;
    for factor in rest {
        least = lesser(least, repeat_number(before, factor));
        before = pair_number(factor.dst, factor.src);
    }
    least
}

/// The number of a factor that has the cells of the one before it.
fn repeat_number(before: u64, factor: &KeptFactor) -> Option<u64>
    ensures { result ≡ repeat_number before factor.now }
{
    if pair_number(factor.dst, factor.src) == before {
        Some(factor.number)
    } else {
        None
    }
}

/// The lesser of two numbers, of which each may be missing.
fn lesser(a: Option<u64>, b: Option<u64>) -> Option<u64>
    ensures { result ≡ lesser a b }
{
    match (a, b) {
        (Some(a), Some(b)) => Some(a.min(b)),
        (None, b) => b,
        (a, None) => a,
    }
}
