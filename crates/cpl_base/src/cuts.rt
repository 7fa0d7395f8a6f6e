//! Cuts of a text: at a byte, behind a sign or a beginning, and at blanks into words; and words joined again.

ghost use Rattle.std.specs.Prelude.{◌≡◌, map, option_map, IfOk};
ghost use Rattle.std.specs.List.{join_with_byte};
ghost use Rattle.cpl_base.specs.Numerals.{cut_at, signed_part};
ghost use Rattle.cpl_base.specs.Words.{is_blank, rest_behind, texts, words_of};

use crate::memory::Memory;
use std::alloc::Global;

/// The text before the first byte `at` and the text after it, or nothing where that byte isn't there. Takes no
/// memory.
///
/// Source: this project's own.
pub fn cut(text: &[u8], at: u8) -> Option<(&[u8], &[u8])>
    ensures { option_map (λ halves. (halves.0.now, halves.1.now)) result ≡ cut_at at text.now }
{
    for (i, byte) in text.iter().enumerate() {
        if *byte == at {
            return Some((&text[..i], &text[i + 1..]));
        }
    }
    None
}

/// Whether a text begins with a minus, and what stands behind it. Takes no memory.
///
/// Source: this project's own.
pub fn split_sign(text: &[u8]) -> (bool, &[u8])
    ensures { (result.0, result.1.now) ≡ signed_part text.now }
{
    match text {
        [b'-', rest @ ..] => (true, rest),
        _ => (false, text),
    }
}

/// What stands in a text behind a beginning, or nothing where it doesn't begin so. Takes no memory.
///
/// Source: this project's own.
pub fn rest_behind<'a>(beginning: &[u8], text: &'a [u8]) -> Option<&'a [u8]>
    ensures { option_map (λ rest. rest.now) result ≡ rest_behind beginning.now text.entry.now }
{
    text.strip_prefix(beginning)
}

/// Whether a byte is a blank: a space or a tab.
///
/// Source: this project's own.
pub fn is_blank(byte: u8) -> bool
    ensures { result ≡ is_blank byte }
{
    byte == b' ' || byte == b'\t'
}

/// The words of a text, in their order: blanks stand between them and count for nothing else.
///
/// Source: this project's own.
pub fn words(alloc: Global, text: &[u8]) -> Result<Vec<&[u8]>, Memory>
    ensures { IfOk result (λ words. texts words.items ≡ words_of text.now) }
{
    let mut words = Vec::new(alloc);
    for piece in text.split(|byte| is_blank(*byte)) {
        if !piece.is_empty() {
            words.push(piece)?;
        }
    }
    Ok(words)
}

/// Words, joined by single spaces.
///
/// Source: this project's own.
pub fn joined(alloc: Global, words: &[&[u8]]) -> Result<Vec<u8>, Memory>
    ensures { IfOk result (λ text. text.items ≡ join_with_byte 32 (texts words.now)) }
{
    let mut text = Vec::new(alloc);
    for (place, word) in words.iter().enumerate() {
        if place > 0 {
            text.push(b' ')?;
        }
        text.extend_from_slice(word)?;
    }
    Ok(text)
}
