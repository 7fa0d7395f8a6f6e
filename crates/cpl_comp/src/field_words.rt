//! What the words of a row say of a field, by their form alone.

ghost use Rattle.std.specs.Prelude.{◌≡◌};
ghost use Rattle.std.specs.Str.{bytes_eq};
ghost use Rattle.cpl_comp.specs.FieldRows.{are_known, are_options, demand_in, export_parts, field_parts, has_one_check, has_word, import_parts, is_check, is_equals, is_option, is_standard_name, no_demand, stands_once, var_parts, wanted_in};
ghost use Rattle.cpl_comp.specs.Views.{parts_view};

use crate::component::{Role, Wanted};
use cpl_base::{Text, place_of};
use cpl_formula::is_field_name;

/// A standard name has at most so many bytes.
const MOST_STANDARD_BYTES: usize = 64;

/// What is asked of the field that an import takes.
#[derive(Clone, Copy, Debug, PartialEq, Eq)]
pub(crate) struct Demand {
    /// Which time stamp it must have.
    pub wanted: Wanted,
    /// Whether there may be none.
    pub optional: bool,
    /// Whether it is taken before the component is initialised.
    pub at_init: bool,
}

/// What a row says of a field.
#[derive(Clone, Copy)]
pub(crate) struct FieldWords<'a> {
    /// Its name.
    pub name: &'a [u8],
    /// Its standard name; empty for a variable.
    pub standard: &'a [u8],
    /// Its units; empty for a variable.
    pub units: &'a [u8],
    /// What is asked of it, where it is an import.
    pub demand: Demand,
    /// The words of its start rule; none for an import.
    pub rule: &'a [Text],
}

/// What a row of the table of variables, of imports or of exports says, if it has the form.
pub(crate) fn field_words(role: Role, words: &[Text]) -> Option<FieldWords<'_>>
    ensures { parts_view result ≡ field_parts role words.entry.now }
{
    match role {
        Role::Var => var_words(words),
        Role::Import => import_words(words),
        Role::Export => export_words(words),
    }
}

/// A variable: `name = RULE`.
fn var_words(words: &[Text]) -> Option<FieldWords<'_>>
    ensures { parts_view result ≡ var_parts words.entry.now }
{
    let [name, equals, rule @ ..] = words else {
        return None;
    };
    if !(is_field_name(name.bytes()) && is_equals(equals) && !rule.is_empty()) {
        return None;
    }
    Some(FieldWords {
        name: name.bytes(),
        standard: b"",
        units: b"",
        demand: no_demand(),
        rule,
    })
}

/// An import: `name standard units` and options.
fn import_words(words: &[Text]) -> Option<FieldWords<'_>>
    ensures { parts_view result ≡ import_parts words.entry.now }
{
    let [name, standard, units, options @ ..] = words else {
        return None;
    };
    if !(is_field_name(name.bytes())
        && is_standard_name(standard.bytes())
        && are_options(options))
    {
        return None;
    }
    Some(FieldWords {
        name: name.bytes(),
        standard: standard.bytes(),
        units: units.bytes(),
        demand: demand_in(options),
        rule: &[],
    })
}

/// An export: `name standard units = RULE`.
fn export_words(words: &[Text]) -> Option<FieldWords<'_>>
    ensures { parts_view result ≡ export_parts words.entry.now }
{
    let [name, standard, units, equals, rule @ ..] = words else {
        return None;
    };
    let has_form = is_field_name(name.bytes())
        && is_standard_name(standard.bytes())
        && is_equals(equals)
        && !rule.is_empty();
    if !has_form {
        return None;
    }
    Some(FieldWords {
        name: name.bytes(),
        standard: standard.bytes(),
        units: units.bytes(),
        demand: no_demand(),
        rule,
    })
}

/// What is asked of a field that is no import: nothing.
fn no_demand() -> Demand
    ensures { result ≡ no_demand }
{
    Demand {
        wanted: Wanted::Unchecked,
        optional: false,
        at_init: false,
    }
}

/// Whether a word is `=`.
pub(crate) fn is_equals(word: &Text) -> bool
    ensures { result ≡ is_equals word.now }
{
    is_word(word, b"=")
}

/// Whether a word is this one.
pub(crate) fn is_word(word: &Text, bytes: &[u8]) -> bool
    ensures { result ≡ bytes_eq word.now bytes.now }
{
    word.bytes() == bytes
}

/// Whether a word may be a standard name.
fn is_standard_name(word: &[u8]) -> bool
    ensures { result ≡ is_standard_name word.now }
{
    word.len() <= MOST_STANDARD_BYTES && word != b"synonym".as_slice()
}

/// Whether words are options of an import: each at most once, and one check at most.
fn are_options(words: &[Text]) -> bool
    ensures { result ≡ are_options words.now }
{
    are_known(words)
        && has_one_check(words)
        && stands_once(b"optional", words)
        && stands_once(b"init", words)
}

/// Whether all words are options of an import.
fn are_known(words: &[Text]) -> bool
    ensures { result ≡ are_known words.now }
{
    words.iter().all(|word| is_option(word))
}

/// Whether at most one of the options says which time stamp an import must have.
fn has_one_check(words: &[Text]) -> bool
    ensures { result ≡ has_one_check words.now }
{
    words.iter().filter(|word| is_check(word)).count() <= 1
}

/// Whether a word stands at most once among others.
fn stands_once(word: &[u8], words: &[Text]) -> bool
    ensures { result ≡ stands_once word.now words.now }
{
    words.iter().filter(|other| is_word(other, word)).count() <= 1
}

/// Whether a word is an option of an import.
fn is_option(word: &Text) -> bool
    ensures { result ≡ is_option word.now }
{
    is_check(word) || is_word(word, b"optional") || is_word(word, b"init")
}

/// Whether an option says which time stamp an import must have.
fn is_check(word: &Text) -> bool
    ensures { result ≡ is_check word.now }
{
    is_word(word, b"check=current") || is_word(word, b"check=next") || is_word(word, b"check=none")
}

/// What an import's options say.
fn demand_in(words: &[Text]) -> Demand
    ensures { result ≡ demand_in words.now }
{
    Demand {
        wanted: wanted_in(words),
        optional: has_word(b"optional", words),
        at_init: has_word(b"init", words),
    }
}

/// Which time stamp an import must have by its options.
fn wanted_in(words: &[Text]) -> Wanted
    ensures { result ≡ wanted_in words.now }
{
    if has_word(b"check=next", words) {
        Wanted::Next
    } else if has_word(b"check=none", words) {
        Wanted::Unchecked
    } else {
        Wanted::Current
    }
}

/// Whether a word stands among others.
fn has_word(word: &[u8], words: &[Text]) -> bool
    ensures { result ≡ has_word word.now words.now }
{
    place_of(word, words).is_some()
}
