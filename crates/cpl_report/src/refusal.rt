//! Refusals, and the line that is written of one.

ghost use Rattle.std.specs.Prelude.{◌≡◌, ◌<◌, ◌≤◌, IfOk};
ghost use Rattle.cpl_report.specs.Refusals.{refusal_line};

use crate::names::refusal_name;
use cpl_base::{Many, Memory, Text, write_number};
use std::alloc::Global;

/// Why a configuration isn't accepted.
#[derive(Drop)]
pub struct Refusal {
    /// The refusal's number, from 1 to 73.
    pub number: u8,
    /// What is refused: a line's number, names, counts, as the kind of refusal has them.
    pub words: Many<Text>,
}

/// The line of a refusal: `refused`, its number in decimal, its name and its words, joined by single blanks, and LF.
/// The number is from 1 to 73. The room is found first and taken once.
///
/// Errors: `Memory` where memory runs out.
///
/// Source: this project's own.
pub fn refusal_text(alloc: Global, refusal: &Refusal) -> Result<Vec<u8>, Memory>
    requires least { 0 < refusal.now.number }
    requires most { refusal.now.number ≤ 73 }
    ensures { IfOk result (λ text. text.items ≡ refusal_line refusal.now.number refusal.now.words) }
{
    let name = refusal_name(refusal.number);
    let words = refusal.words.items();
    let mut text = Vec::with_capacity(alloc, room_of(refusal.number, name, words))?;
    text.extend_from_slice(b"refused ")?;
    write_number(&mut text, u128::from(refusal.number))?;
    text.push(b' ')?;
    text.extend_from_slice(name)?;
    for word in words {
        text.push(b' ')?;
        text.extend_from_slice(word.bytes())?;
    }
    text.push(b'\n')?;
    Ok(text)
}

/// How many bytes the line has; the greatest number stands for all that are as great or greater.
fn room_of(number: u8, name: &[u8], words: &[Text]) -> usize {
    let digits = if number < 10 { 1 } else { 2 };
    let mut room = name.len().saturating_add(b"refused  \n".len() + digits);
    for word in words {
        room = room.saturating_add(1).saturating_add(word.bytes().len());
    }
    room
}
