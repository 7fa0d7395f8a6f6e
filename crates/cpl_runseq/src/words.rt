//! The words of a row: `->` is a word of its own, even where it touches others.

ghost use Rattle.std.specs.Prelude.{◌≡◌, ◌++◌, [], IfOk, OnOk, option_map};
ghost use Rattle.cpl_base.specs.Words.{texts};
ghost use Rattle.cpl_runseq.specs.RowWords.{arrow_words, is_arrow, row_words, word_if_any};
ghost use Rattle.cpl_runseq.specs.Views.{cut_arrow};

use cpl_base::Memory;
use cpl_config::Row;
use std::alloc::Global;

/// The arrow between two components.
pub(crate) const ARROW: &[u8] = b"->";

/// The words of a row, from left to right.
pub(crate) fn row_words(alloc: Global, row: &Row) -> Result<Vec<&[u8]>, Memory>
    ensures { IfOk result (λ words. texts words.items ≡ row_words row.now.words) }
{
    let mut words = Vec::new(alloc);
    for word in row.words.items() {
        push_words(&mut words, word.bytes())?;
    }
    Ok(words)
}

/// Puts the words of a text behind others.
fn push_words<'a>(words: &mut Vec<&'a [u8]>, text: &'a [u8]) -> Result<(), Memory>
    ensures { OnOk result (texts words.new.items ≡ texts words.old.items ++ arrow_words [] text.now) }
{
    let mut rest = text;
    while let Some((before, after)) = cut_arrow(rest) {
        push_if_any(words, before)?;
        words.push(ARROW)?;
        rest = after;
    }
    push_if_any(words, rest)?;
    Ok(())
}

/// Puts a word behind others, where it has a byte.
fn push_if_any<'a>(words: &mut Vec<&'a [u8]>, word: &'a [u8]) -> Result<(), Memory>
    ensures { OnOk result (texts words.new.items ≡ texts words.old.items ++ word_if_any word.now) }
{
    if !word.is_empty() {
        words.push(word)?;
    }
    Ok(())
}

/// The text before the first arrow and the text after it, or nothing where there is none.
fn cut_arrow(text: &[u8]) -> Option<(&[u8], &[u8])>
    ensures { option_map (λ halves. (halves.0.now, halves.1.now)) result ≡ cut_arrow text.now }
{
    for end in 1..text.len() {
        if is_arrow(text[end - 1], text[end]) {
            return Some((&text[..end - 1], &text[end + 1..]));
        }
    }
    None
}

/// Whether two bytes are an arrow.
fn is_arrow(first: u8, second: u8) -> bool
    ensures { result ≡ is_arrow first second }
{
    first == b'-' && second == b'>'
}
