//! A text cut into lines and words in one pass from its front to its end.
//!
//! Lines end in LF or CR LF, a comment goes from `#` to the end of its line, and blanks and tabs stand
//! between words (ESMF Reference Manual, Config class).

ghost use Rattle.std.specs.Prelude.{◌≡◌, ◌+◌, ◌-◌, ◌^◌, ◌<◌, length, map, position, IfOk, IfErr, OnOk};
ghost use Rattle.std.specs.List.{All, list_all};
ghost use Rattle.std.specs.Str.Lines.{strip_carriage_return};
ghost use Rattle.cpl_text.specs.Lines.{begins_comment, faulty_line, content_of, is_allowed, words_at};
ghost use Rattle.cpl_text.specs.Spans.{IsCaused, IsLines, StandsIn, line_in, span_of};

use crate::fault::TextFault;
use std::alloc::{AllocError, Global};

/// A word: the places in the text where it begins and where it ends, the end not included.
#[derive(Clone, Copy, Debug, PartialEq, Eq)]
pub struct Word {
    /// The place of its first byte, counted from 0.
    pub start: usize,
    /// The place behind its last byte.
    pub end: usize,
}

/// A line that has words.
#[derive(Debug, Drop)]
pub struct Line {
    /// Its number, counted from 1; lines without words count, too.
    pub number: u32,
    /// Its words, from left to right.
    pub words: Vec<Word>,
}

/// The lines of a text that have words, each with its words; linear in the text's length, with at most
/// one allocation for each line. The text has fewer than 2^32 - 1 bytes.
///
/// Errors: `NotAscii` exactly where a byte outside comments is neither a tab nor from the space to `~`,
/// with the number of the first such line.
///
/// Source: this project's own; ends of lines and comments are those of the ESMF Reference Manual,
/// Config class.
pub fn lines(alloc: Global, bytes: &[u8]) -> Result<Vec<Line>, TextFault>
    requires { length bytes.now < 2 ^ 32 - 1 }
    ensures ok { IfOk result (λ lines. IsLines bytes.now lines.items) }
    // Each word lies within the text and is what stands between its ends.
    ensures stand { IfOk result (λ lines. All (λ line. StandsIn bytes.now (line_in bytes.now line)) lines.items) }
    ensures fault { IfErr result (IsCaused (faulty_line bytes.now)) }
{
    let mut lines = Vec::new(alloc);
    let mut words = Vec::new(alloc);
    let mut number = 0u32;
    let mut start = 0usize;
    for line in bytes.split(|byte| *byte == b'\n') {
        number += 1;
        let text = content_of(line);
        if !are_allowed(text) {
            return Err(TextFault::NotAscii { line: number });
        }
        read_words(&mut words, start, text)?;
        if !words.is_empty() {
            let words = Vec::from_slice(alloc, words.as_slice())?;
            lines.push(Line { number, words })?;
        }
        start += line.len() + 1;
    }
    Ok(lines)
}

/// What stands between two line feeds, without the CR that ends it.
fn without_return(line: &[u8]) -> &[u8]
    ensures { result.now ≡ strip_carriage_return line.now }
{
    match line {
        [front @ .., b'\r'] => front,
        _ => line,
    }
}

/// Where the first comment begins.
fn comment_place(line: &[u8]) -> Option<usize>
    ensures { result ≡ position begins_comment line.now }
{
    line.iter().position(|byte| *byte == b'#')
}

/// What is looked at of what stands between two line feeds: neither the CR that ends it nor a comment.
fn content_of(line: &[u8]) -> &[u8]
    ensures { result.now ≡ content_of line.now }
{
    let line = without_return(line);
    match comment_place(line) {
        Some(place) => &line[..place],
        None => line,
    }
}

/// Whether each byte is a tab or from the space to `~`.
fn are_allowed(text: &[u8]) -> bool
    ensures { result ≡ list_all is_allowed text.now }
{
    text.iter()
        .all(|byte| (b' ' <= *byte && *byte <= b'~') || *byte == b'\t')
}

/// Puts the words of a text that begins at a place into `words`, in place of those that were there.
fn read_words(words: &mut Vec<Word>, start: usize, text: &[u8]) -> Result<(), AllocError>
    requires { start + length text.now < 2 ^ 32 }
    ensures { OnOk result (map span_of (words_at start text.now) ≡ words.new.items) }
{
    words.clear();
    let mut place = start;
    for piece in text.split(|byte| *byte == b' ' || *byte == b'\t') {
        let end = place + piece.len();
        if !piece.is_empty() {
            words.push(Word { start: place, end })?;
        }
        place = end + 1;
    }
    Ok(())
}
