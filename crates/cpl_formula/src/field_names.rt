//! Names that a field may have.

ghost use Rattle.std.specs.Prelude.{◌≡◌};
ghost use Rattle.std.specs.List.{list_any};
ghost use Rattle.std.specs.Str.{bytes_eq};
ghost use Rattle.cpl_base.specs.Words.{texts};
ghost use Rattle.cpl_formula.specs.FieldNames.{is_field_name, reserved_names};

use cpl_base::{is_name, rest_behind};

/// The names that formulas use for something else.
const RESERVED: [&[u8]; 19] = [
    b"i", b"j", b"s", b"nx", b"ny", b"year", b"month", b"day", b"hour", b"minute", b"second",
    b"days", b"daysec", b"dt", b"min", b"max", b"abs", b"sel", b"call",
];

/// Whether a word is a name that a field may have: one that formulas don't use for something else and that
/// doesn't begin with `ring_`, which is for alarms. Takes no memory.
///
/// Source: this project's own.
pub fn is_field_name(word: &[u8]) -> bool
    ensures { result ≡ is_field_name word.now }
{
    is_name(word) && !is_reserved(word) && rest_behind(b"ring_", word).is_none()
}

/// Whether formulas use a name for something else.
fn is_reserved(word: &[u8]) -> bool
    ensures { result ≡ list_any (λ name. bytes_eq name word.now) reserved_names }
{
    is_among(word, &RESERVED)
}

/// Whether a word is among others.
fn is_among(word: &[u8], words: &[&[u8]]) -> bool
    ensures { result ≡ list_any (λ name. bytes_eq name word.now) (texts words.now) }
{
    words.iter().any(|name| *name == word)
}
