//! The lines of a resource file and what single lines say.

ghost use Rattle.std.specs.Prelude.{◌≡◌, ◌<◌, ◌++◌, codes, length, IfOk, option_map};
ghost use Rattle.cpl_base.specs.Chain.{sole_member};
ghost use Rattle.cpl_driver.specs.Files.{assignment_of, line_at, lines_of};
ghost use Rattle.cpl_base.specs.Words.{rest_behind, texts};
ghost use Rattle.cpl_driver.specs.Names.{closes_table, is_word, opens_table, values_of};
ghost use Rattle.cpl_driver.specs.Reads.{line_texts};

use cpl_base::{Memory, rest_behind, words};
use std::alloc::Global;

/// The lines that have words, each as its words.
pub fn lines(alloc: Global, bytes: &[u8]) -> Result<Vec<Vec<&[u8]>>, Memory>
    ensures { IfOk result (λ lines. line_texts lines.items ≡ lines_of bytes.now) }
{
    let mut lines = Vec::new(alloc);
    for piece in bytes.split(|byte| *byte == b'\n') {
        let line = words(alloc, piece)?;
        if !line.is_empty() {
            lines.push(line)?;
        }
    }
    Ok(lines)
}

/// The words of the line at a place, counted from 0.
#[tactic(auto, unfolding(crate::specs::Files::line_at))]
pub fn line_at<'a>(lines: &'a [Vec<&'a [u8]>], place: usize) -> &'a [&'a [u8]]
    requires { place < length lines.now }
    ensures { texts result.now ≡ line_at (line_texts lines.entry.now) place }
{
    lines[place].as_slice()
}

/// The one word of a line that has just one.
pub fn single<'a>(words: &[&'a [u8]]) -> Option<&'a [u8]>
    ensures { option_map (λ word. word.now) result ≡ sole_member (texts words.now) }
{
    match words {
        [word] => Some(word),
        _ => None,
    }
}

/// Whether a line is this one word.
pub fn is_word(word: &[u8], line: &[&[u8]]) -> bool
    ensures { result ≡ is_word word.now (texts line.now) }
{
    match line {
        [only] => *only == word,
        _ => false,
    }
}

/// What stands in a word behind a label and its colon, if it begins so.
#[tactic(auto, using(crate::proofs::NamesFacts::rest_behind_both))]
fn behind_label<'a>(label: &[u8], word: &'a [u8]) -> Option<&'a [u8]>
    ensures { option_map (λ first. first.now) result ≡ rest_behind (label.now ++ codes ":") word.entry.now }
{
    rest_behind(b":", rest_behind(label, word)?)
}

/// The values of a line that is the value item of this label; the first may stand right behind the colon.
pub fn values<'a>(
    alloc: Global,
    label: &[u8],
    line: &[&'a [u8]],
) -> Result<Option<Vec<&'a [u8]>>, Memory>
    ensures { IfOk result (λ values. option_map (λ v. texts v.items) values ≡ values_of label.now (texts line.now)) }
{
    let Some((word, words)) = line.split_first() else {
        return Ok(None);
    };
    let Some(first) = behind_label(label, word) else {
        return Ok(None);
    };
    let mut values = Vec::with_capacity(alloc, line.len())?;
    if !first.is_empty() {
        values.push(first)?;
    }
    values.extend_from_slice(words)?;
    Ok(Some(values))
}

/// The field and the words of the rule, of a row `FIELD = RULE`.
pub fn assignment<'a>(row: &'a [&'a [u8]]) -> Option<(&'a [u8], &'a [&'a [u8]])>
    ensures { option_map (λ parts. (parts.0.now, texts parts.1.now)) result ≡ assignment_of (texts row.entry.now) }
{
    match row {
        [field, equals, rule @ ..] if *equals == b"=".as_slice() && !rule.is_empty() => Some((
            field, rule,
        )),
        _ => None,
    }
}

/// A label that begins with a component's name.
pub fn labelled(alloc: Global, name: &[u8], rest: &[u8]) -> Result<Vec<u8>, Memory>
    ensures { IfOk result (λ label. label.items ≡ name.now ++ rest.now) }
{
    let mut label = Vec::from_slice(alloc, name)?;
    label.extend_from_slice(rest)?;
    Ok(label)
}

/// Whether a line opens the table of this label.
pub fn opens_table(alloc: Global, label: &[u8], line: &[&[u8]]) -> Result<bool, Memory>
    ensures { IfOk result (λ opens. opens ≡ opens_table label.now (texts line.now)) }
{
    let opening = labelled(alloc, label, b"::")?;
    Ok(is_word(opening.as_slice(), line))
}

/// Whether a line closes a table.
pub fn closes_table(line: &[&[u8]]) -> bool
    ensures { result ≡ closes_table (texts line.now) }
{
    is_word(b"::", line)
}
