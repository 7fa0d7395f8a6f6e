//! What a row of a phase says by its form alone, names aside.

ghost use Rattle.std.specs.Prelude.{◌≡◌};
ghost use Rattle.cpl_comp.specs.RowForms.{add_form, are_terms, assign_form, average_form, check_form, keyword_form, merge_form, row_form};
ghost use Rattle.cpl_comp.specs.Views.{form_view};

use crate::field_words::{is_equals, is_word};
use cpl_base::{Text, read_val};

/// What a row says.
#[derive(Clone, Copy)]
pub(crate) enum RowForm<'a> {
    /// A field takes a rule's value.
    Assign {
        /// Its name.
        field: &'a [u8],
        /// The words of the rule.
        rule: &'a [Text],
    },
    /// A field's values must lie in a range once the phase has run.
    Check {
        /// Its name.
        field: &'a [u8],
        /// The least value, in millionths.
        low: i64,
        /// The greatest value, in millionths.
        high: i64,
    },
    /// A rule's value is kept for a field.
    Add {
        /// Its name.
        field: &'a [u8],
        /// The words of the rule.
        rule: &'a [Text],
    },
    /// A field takes the mean of what was kept for it.
    Average {
        /// Its name.
        field: &'a [u8],
    },
    /// A field takes a sum of products of two fields each.
    Merge {
        /// Its name.
        field: &'a [u8],
        /// The names of the factors, two by two.
        factors: &'a [Text],
    },
    /// None of these.
    NoForm,
}

/// The form of a row: with `=` as its second word it is an assignment, whatever its first is.
pub(crate) fn row_form(words: &[Text]) -> RowForm<'_>
    ensures { form_view result ≡ row_form words.entry.now }
{
    match words {
        [word, next, rule @ ..] if is_equals(next) => assign_form(word, rule),
        [word, _, ..] => keyword_form(word, &words[1..]),
        _ => RowForm::NoForm,
    }
}

/// A rule's value for a field: there is a rule.
fn assign_form<'a>(field: &'a Text, rule: &'a [Text]) -> RowForm<'a>
    ensures { form_view result ≡ assign_form field.entry.now rule.entry.now }
{
    if rule.is_empty() {
        return RowForm::NoForm;
    }
    let field = field.bytes();
    RowForm::Assign { field, rule }
}

/// A row whose second word isn't `=`, by its first.
fn keyword_form<'a>(word: &Text, words: &'a [Text]) -> RowForm<'a>
    ensures { form_view result ≡ keyword_form word.now words.entry.now }
{
    if is_word(word, b"check") {
        check_form(words)
    } else if is_word(word, b"add") {
        add_form(words)
    } else if is_word(word, b"average") {
        average_form(words)
    } else if is_word(word, b"merge") {
        merge_form(words)
    } else {
        RowForm::NoForm
    }
}

/// A range: `F low high`, where both ends are values and in order.
fn check_form(words: &[Text]) -> RowForm<'_>
    ensures { form_view result ≡ check_form words.entry.now }
{
    let [field, low, high] = words else {
        return RowForm::NoForm;
    };
    match (read_val(low.bytes()), read_val(high.bytes())) {
        (Ok(low), Ok(high)) if low <= high => {
            let field = field.bytes();
            RowForm::Check { field, low, high }
        }
        _ => RowForm::NoForm,
    }
}

/// A kept value: `F = RULE`.
fn add_form(words: &[Text]) -> RowForm<'_>
    ensures { form_view result ≡ add_form words.entry.now }
{
    match words {
        [field, equals, rule @ ..] if is_equals(equals) && !rule.is_empty() => {
            let field = field.bytes();
            RowForm::Add { field, rule }
        }
        _ => RowForm::NoForm,
    }
}

/// A mean: `F`.
fn average_form(words: &[Text]) -> RowForm<'_>
    ensures { form_view result ≡ average_form words.entry.now }
{
    match words {
        [field] => {
            let field = field.bytes();
            RowForm::Average { field }
        }
        _ => RowForm::NoForm,
    }
}

/// A sum of products: `F = a f b g ..`.
fn merge_form(words: &[Text]) -> RowForm<'_>
    ensures { form_view result ≡ merge_form words.entry.now }
{
    match words {
        [field, equals, factors @ ..] if is_equals(equals) && are_terms(factors) => {
            let field = field.bytes();
            RowForm::Merge { field, factors }
        }
        _ => RowForm::NoForm,
    }
}

/// Whether words are those of one to 32 products of two factors.
fn are_terms(words: &[Text]) -> bool
    ensures { result ≡ are_terms words.now }
{
    2 <= words.len() && words.len() <= 64 && words.len() % 2 == 0
}
