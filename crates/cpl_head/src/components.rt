//! The list of components.

ghost use Rattle.std.specs.Prelude.{◌≡◌, IfOk};
ghost use Rattle.std.specs.List.{list_all};
ghost use Rattle.cpl_base.specs.Gives.{Gives};
ghost use Rattle.cpl_base.specs.Words.{is_name};
ghost use Rattle.cpl_head.specs.Components.{AreComponents, components_in};

use crate::fault::HeadFault;
use cpl_base::{Many, Memory, Text, first_repeat, is_name};
use cpl_config::Row;
use std::alloc::Global;

/// There are at most so many components.
const MOST_COMPONENTS: usize = 32;

/// The components that a list names, in its order.
pub(crate) fn components_in(alloc: Global, row: &Row) -> Result<Many<Text>, HeadFault>
    ensures gives { Gives HeadFault.Memory (λ names. names) result (components_in row.now) }
    ensures names { IfOk result AreComponents }
{
    let words = row.words.items();
    if words.is_empty() || !are_names(words) {
        return Err(HeadFault::BadValue { line: row.line });
    }
    if first_repeat(alloc, words)?.is_some() {
        return Err(HeadFault::BadValue { line: row.line });
    }
    if words.len() > MOST_COMPONENTS {
        return Err(HeadFault::TooManyComponents {
            count: words.len() as u64,
        });
    }
    Ok(copies(alloc, words)?)
}

/// Whether all words are names.
fn are_names(words: &[Text]) -> bool
    ensures { result ≡ list_all is_name words.now }
{
    words.iter().all(|word| is_name(word.bytes()))
}

/// Words of their own with the same bytes.
fn copies(alloc: Global, words: &[Text]) -> Result<Many<Text>, Memory>
    ensures { IfOk result (λ copies. copies ≡ words.now) }
{
    let mut copies = Vec::with_capacity(alloc, words.len())?;
    for word in words {
        copies.push(word.copy(alloc)?)?;
    }
    Ok(Many::of(copies))
}
