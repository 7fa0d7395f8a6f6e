//! Names: what they are made of, and where one stands among others.

ghost use Rattle.std.specs.Prelude.{◌≡◌, IfOk};
ghost use Rattle.std.specs.List.{list_all};
ghost use Rattle.cpl_base.specs.Words.{first_repeat, is_letter, is_name, is_name_byte, place_of};

use crate::memory::Memory;
use crate::text::Text;
use std::alloc::Global;
use std::collections::HashSet;

/// Whether a byte is a letter of the ASCII alphabet.
///
/// Source: this project's own.
pub fn is_letter(byte: u8) -> bool
    ensures { result ≡ is_letter byte }
{
    byte.is_ascii_alphabetic()
}

/// Whether a byte may stand in a name behind its first letter: a letter, a digit or `_`.
///
/// Source: this project's own.
pub fn is_name_byte(byte: u8) -> bool
    ensures { result ≡ is_name_byte byte }
{
    byte.is_ascii_alphanumeric() || byte == b'_'
}

/// Whether a word is a name: a letter, then letters, digits and `_`, of at most 32 bytes. Takes no memory.
///
/// Source: this project's own.
pub fn is_name(word: &[u8]) -> bool
    ensures { result ≡ is_name word.now }
{
    match word {
        [first, rest @ ..] => is_letter(*first) && are_name_bytes(rest) && rest.len() <= 31,
        [] => false,
    }
}

/// Whether each byte may stand in a name behind its first letter. Takes no memory.
///
/// Source: this project's own.
pub fn are_name_bytes(bytes: &[u8]) -> bool
    ensures { result ≡ list_all is_name_byte bytes.now }
{
    bytes.iter().all(|byte| is_name_byte(*byte))
}

/// The place of the first text that is this one, counted from 0, or nothing where none is. Takes no memory.
///
/// Source: this project's own.
pub fn place_of(text: &[u8], among: &[Text]) -> Option<usize>
    ensures { result ≡ place_of among.now text.now }
{
    among.iter().position(|other| other.bytes() == text)
}

/// The place of the first text that stood before, counted from 0, or nothing where all are distinct. Takes
/// time in the length of the texts.
///
/// Source: this project's own.
pub fn first_repeat(alloc: Global, among: &[Text]) -> Result<Option<usize>, Memory>
    ensures { IfOk result (λ place. place ≡ first_repeat among.now) }
{
    let mut seen = HashSet::new(alloc);
    for (place, text) in among.iter().enumerate() {
        if !seen.insert(text.bytes())? {
            return Ok(Some(place));
        }
    }
    Ok(None)
}
