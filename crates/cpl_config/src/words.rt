//! What the words of one line say.

ghost use Rattle.std.specs.Prelude.{◌≡◌, IfOk, option_map};
ghost use Rattle.cpl_base.specs.Words.{texts};
ghost use Rattle.cpl_config.specs.declared.row.Row.{Row};
ghost use Rattle.cpl_config.specs.Words.{ends_in_colons, is_colons, is_stray, is_table_end, label_before_colons, table_label, value_item, values_of};

use crate::row::Row;
use cpl_base::{Many, Memory, Text, cut};
use std::alloc::Global;

/// A value item: its label, and its values; the first is empty where nothing stands right behind the
/// colon.
#[derive(Clone, Copy)]
pub struct ValueItem<'a> {
    /// What stands before the first colon.
    pub label: &'a [u8],
    /// What stands behind it in the same word.
    pub first: &'a [u8],
    /// The further words.
    pub more: &'a [&'a [u8]],
}

/// The label of the table that a line opens, if it opens one.
pub fn table_label<'a>(words: &[&'a [u8]]) -> Option<&'a [u8]>
    ensures { option_map (λ label. label.now) result ≡ table_label (texts words.now) }
{
    match words {
        [word] => label_before_colons(word),
        _ => None,
    }
}

/// The value item that a line is, if it is one.
pub fn value_item<'a>(words: &'a [&'a [u8]]) -> Option<ValueItem<'a>>
    ensures { option_map (λ v. (v.label.now, values_of v.first.now (texts v.more.now))) result ≡ value_item (texts words.entry.now) }
{
    let (word, more) = words.split_first()?;
    if ends_in_colons(word) {
        return None;
    }
    let (label, first) = cut(word, b':')?;
    if label.is_empty() {
        return None;
    }
    Some(ValueItem { label, first, more })
}

/// Whether the first word of a line is `::`.
pub fn is_stray(words: &[&[u8]]) -> bool
    ensures { result ≡ is_stray (texts words.now) }
{
    match words {
        [word, ..] => is_colons(word),
        [] => false,
    }
}

/// Whether a line closes a table.
pub fn is_table_end(words: &[&[u8]]) -> bool
    ensures { result ≡ is_table_end (texts words.now) }
{
    match words {
        [word] => is_colons(word),
        _ => false,
    }
}

/// A row of words that are copied; the first counts only where it has a byte.
pub fn row(alloc: Global, number: u32, first: &[u8], more: &[&[u8]]) -> Result<Row, Memory>
    ensures { IfOk result (λ row. row ≡ record { line = number; words = values_of first.now (texts more.now) }) }
{
    let mut words = Vec::with_capacity(alloc, more.len() + 1)?;
    if !first.is_empty() {
        words.push(Text::of(alloc, first)?)?;
    }
    for word in more {
        words.push(Text::of(alloc, word)?)?;
    }
    Ok(Row {
        line: number,
        words: Many::of(words),
    })
}

/// Whether a word is `::`.
fn is_colons(word: &[u8]) -> bool
    ensures { result ≡ is_colons word.now }
{
    word == b"::".as_slice()
}

/// Whether a word ends in `::`.
fn ends_in_colons(word: &[u8]) -> bool
    ensures { result ≡ ends_in_colons word.now }
{
    let (_, end) = word.split_at(word.len().saturating_sub(2));
    is_colons(end)
}

/// The label in front of the `::` at a word's end, if there is one.
fn label_before_colons(word: &[u8]) -> Option<&[u8]>
    ensures { option_map (λ label. label.now) result ≡ label_before_colons word.now }
{
    if ends_in_colons(word) && word.len() > 2 {
        Some(&word[..word.len() - 2])
    } else {
        None
    }
}
