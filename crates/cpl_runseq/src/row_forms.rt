//! Reading the words of a row by their form alone.

ghost use Rattle.std.specs.Prelude.{◌≡◌};
ghost use Rattle.cpl_base.specs.Numerals.{cut_at};
ghost use Rattle.cpl_base.specs.Words.{texts};
ghost use Rattle.cpl_runseq.specs.RowForms.{form_of_link, form_of_loop, form_of_one, form_of_two, may_be_first, row_form, step_and_duration, step_in};
ghost use Rattle.cpl_runseq.specs.Views.{form_view};

use crate::form::Form;
use crate::words::ARROW;
use cpl_base::{cut, number_between};

/// The longest step in seconds.
const MOST_STEP: u64 = 1_000_000_000;

/// The longest duration in seconds.
const MOST_DURATION: u64 = 1_000_000_000_000;

/// What the words of a row say.
pub(crate) fn row_form<'a>(words: &'a [&'a [u8]]) -> Form<'a>
    ensures { form_view result ≡ row_form (texts words.entry.now) }
{
    match words {
        [] => Form::BadElement,
        [word] => form_of_one(word),
        [component, phase] => form_of_two(component, phase),
        [src, between, dst, options @ ..] => form_of_link(src, between, dst, options),
    }
}

/// What the one word of a row says.
fn form_of_one(word: &[u8]) -> Form<'_>
    ensures { form_view result ≡ form_of_one word.entry.now }
{
    if let [b'@', text @ ..] = word {
        return form_of_loop(text);
    }
    if word == ARROW {
        return Form::BadElement;
    }
    Form::Run {
        component: word,
        phase: None,
    }
}

/// What stands behind the `@` of a row of one word.
fn form_of_loop(text: &[u8]) -> Form<'_>
    ensures { form_view result ≡ form_of_loop text.entry.now }
{
    match text {
        [] => Form::Close,
        [b'@', ..] => Form::BadElement,
        _ => match step_and_duration(text) {
            Some((step, given)) => Form::Opening { step, given },
            None => Form::BadStep,
        },
    }
}

/// A step, or a step and a duration.
fn step_and_duration(text: &[u8]) -> Option<(Option<u64>, Option<u64>)>
    ensures { result ≡ step_and_duration text.now (cut_at 58 text.now) }
{
    let Some((step, duration)) = cut(text, b':') else {
        let step = step_in(text)?;
        return Some((step, None));
    };
    let step = step_in(step)?;
    let duration = number_between(1, MOST_DURATION, duration)?;
    Some((step, Some(duration)))
}

/// The step that a text gives; `*` gives none.
fn step_in(text: &[u8]) -> Option<Option<u64>>
    ensures { result ≡ step_in text.now }
{
    if text == b"*".as_slice() {
        return Some(None);
    }
    let step = number_between(1, MOST_STEP, text)?;
    Some(Some(step))
}

/// What a row of two words says.
fn form_of_two<'a>(component: &'a [u8], phase: &'a [u8]) -> Form<'a>
    ensures { form_view result ≡ form_of_two component.entry.now phase.entry.now }
{
    if may_be_first(component) && phase != ARROW {
        let phase = Some(phase);
        Form::Run { component, phase }
    } else {
        Form::BadElement
    }
}

/// What a row of three words or more says.
fn form_of_link<'a>(
    src: &'a [u8],
    between: &[u8],
    dst: &'a [u8],
    options: &'a [&'a [u8]],
) -> Form<'a>
    ensures { form_view result ≡ form_of_link src.entry.now between.now dst.entry.now (texts options.entry.now) }
{
    if may_be_first(src) && between == ARROW && dst != ARROW {
        Form::Link { src, dst, options }
    } else {
        Form::BadElement
    }
}

/// Whether a word may name a component that stands first in a row.
fn may_be_first(word: &[u8]) -> bool
    ensures { result ≡ may_be_first word.now }
{
    match word {
        [] => true,
        [first, ..] => *first != b'@' && word != ARROW,
    }
}
