//! Factors in two lists, as rows keep them.

ghost use Rattle.std.specs.Prelude.{◌≡◌, IfOk, OnOk, length, map};
ghost use Rattle.cpl_smm.specs.Kept.{ascend_from, dst_of, entry_of};

use crate::entries::{KeptFactor, pair_number};
use cpl_base::Memory;

/// Factors: their destination cells, and in the same order their source cells and weights.
#[derive(Drop)]
pub(crate) struct Columns {
    /// The destination cells.
    pub dsts: Vec<u32>,
    /// The source cells, each with its weight in billionths.
    pub entries: Vec<(u32, i64)>,
}

/// Whether factors ascend by their cells, so that no two have the same.
pub(crate) fn are_ascending(dsts: &[u32], entries: &[(u32, i64)]) -> bool
    requires { length dsts.now ≡ length entries.now }
    ensures { result ≡ ascend_from 0 dsts.now entries.now }
{
    let mut before = 0;
    for k in 0..dsts.len() {
        let pair = pair_number(dsts[k], entries[k].0);
        if pair <= before {
            return false;
        }
        before = pair;
    }
    true
}

/// Factors in two lists, which take the place of those that are given, and their memory.
pub(crate) fn refilled(columns: Columns, factors: &[KeptFactor]) -> Result<Columns, Memory>
    ensures dsts { IfOk result (λ columns. columns.dsts.items ≡ map dst_of factors.now) }
    ensures entries { IfOk result (λ columns. columns.entries.items ≡ map entry_of factors.now) }
{
    let Columns {
        mut dsts,
        mut entries,
    } = columns;
    fill_dsts(&mut dsts, factors)?;
    fill_entries(&mut entries, factors)?;
    Ok(Columns { dsts, entries })
}

/// The destination cells of factors, in place of what the list has.
fn fill_dsts(dsts: &mut Vec<u32>, factors: &[KeptFactor]) -> Result<(), Memory>
    ensures { OnOk result (dsts.new.items ≡ map dst_of factors.now) }
{
    dsts.clear();
    for factor in factors {
        dsts.push(factor.dst)?;
    }
    Ok(())
}

/// The source cells and the weights of factors, in place of what the list has.
fn fill_entries(entries: &mut Vec<(u32, i64)>, factors: &[KeptFactor]) -> Result<(), Memory>
    ensures { OnOk result (entries.new.items ≡ map entry_of factors.now) }
{
    entries.clear();
    for factor in factors {
        entries.push(factor.entry())?;
    }
    Ok(())
}
