//! The kind of a component, and on which PETs it lives.

ghost use Rattle.std.specs.Prelude.{◌≡◌, ◌<◌, ◌^◌, IfOk, IfSome, option_copied};
ghost use Rattle.cpl_comp.specs.Pets.{AreBounds, bounds_in, kind_in, kind_word, kind_words, number_pair};

use crate::component::Kind;
use crate::fault::CompFault;
use cpl_base::{Text, number_word};
use cpl_config::Row;

/// The greatest PET.
const MOST_PET: u64 = 63;

/// The kind of a component; a model, where none is given.
pub(crate) fn kind_in(row: Option<&Row>) -> Result<Kind, CompFault>
    ensures { result ≡ kind_in (option_copied row.entry) }
{
    let Some(row) = row else {
        return Ok(Kind::Model);
    };
    match kind_words(row.words.items()) {
        Some(kind) => Ok(kind),
        None => Err(CompFault::BadValue { line: row.line }),
    }
}

/// The kind that the one word names.
fn kind_words(words: &[Text]) -> Option<Kind>
    ensures { result ≡ kind_words words.now }
{
    match words {
        [word] => kind_word(word.bytes()),
        _ => None,
    }
}

/// The kind that a word names.
fn kind_word(word: &[u8]) -> Option<Kind>
    ensures { result ≡ kind_word word.now }
{
    if word == b"model".as_slice() {
        Some(Kind::Model)
    } else if word == b"mediator".as_slice() {
        Some(Kind::Mediator)
    } else {
        None
    }
}

/// The least and the greatest of a component's PETs, where they are given.
pub(crate) fn bounds_in(row: Option<&Row>) -> Result<Option<(u8, u8)>, CompFault>
    ensures value { result ≡ bounds_in (option_copied row.entry) }
    ensures bounds { IfOk result (λ bounds. IfSome bounds AreBounds) }
{
    let Some(row) = row else {
        return Ok(None);
    };
    let Some((lower, upper)) = number_pair(row.words.items()) else {
        return Err(CompFault::BadValue { line: row.line });
    };
    if lower <= upper && upper <= MOST_PET {
        Ok(Some((lower as u8, upper as u8)))
    } else {
        Err(CompFault::PetOutOfRange { line: row.line })
    }
}

/// Two numbers.
fn number_pair(words: &[Text]) -> Option<(u64, u64)>
    ensures { result ≡ number_pair words.now }
{
    match words {
        [first, second] => {
            let m = number_word(first.bytes())?;
            let n = number_word(second.bytes())?;
            Some((m, n))
        }
        _ => None,
    }
}
