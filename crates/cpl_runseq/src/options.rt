//! Reading the options of a link.

ghost use Rattle.std.specs.Prelude.{◌≡◌, codes, option_map};
ghost use Rattle.std.specs.List.{list_all};
ghost use Rattle.std.specs.Str.{str_eq_ignore_ascii_case};
ghost use Rattle.cpl_base.specs.Numerals.{cut_at};
ghost use Rattle.cpl_base.specs.Words.{texts};
ghost use Rattle.cpl_runseq.specs.Options.{begins_with_colon, file_in, method_in, option_texts, terms_in, transfer_by, transfer_of, with_halves, with_option, with_word};
ghost use Rattle.cpl_runseq.specs.Views.{options_view, result_view};

use crate::fault::SeqFault;
use crate::transfer::{OptionWords, TransferWords};
use cpl_base::{cut, signed_number_word};
use cpl_sequence::Method;

/// How values go over by the words behind a link, each of which begins with a colon.
pub(crate) fn transfer_of<'a>(line: u32, words: &[&'a [u8]]) -> Result<TransferWords<'a>, SeqFault>
    ensures { result_view result ≡ transfer_of line (texts words.now) }
{
    if !all_begin_with_colon(words) {
        return Err(SeqFault::BadElement { line });
    }
    transfer_by(line, option_texts(words))
}

/// Whether all words begin with a colon.
fn all_begin_with_colon(words: &[&[u8]]) -> bool
    ensures { result ≡ list_all begins_with_colon (texts words.now) }
{
    for word in words {
        if !begins_with_colon(word) {
            return false;
        }
    }
    true
}

/// Whether a word begins with a colon.
fn begins_with_colon(word: &[u8]) -> bool
    ensures { result ≡ begins_with_colon word.now }
{
    match word {
        [] => false,
        [first, ..] => *first == b':',
    }
}

/// The options of words.
fn option_texts<'a>(words: &[&'a [u8]]) -> OptionWords<'a>
    ensures { options_view result ≡ option_texts (texts words.now) }
{
    let mut options = OptionWords {
        method: None,
        file: None,
        terms: None,
    };
    for word in words {
        options = with_word(options, word);
    }
    options
}

/// The pieces of a word more, which stand between its colons.
fn with_word<'a>(so_far: OptionWords<'a>, word: &'a [u8]) -> OptionWords<'a>
    ensures { options_view result ≡ with_word (options_view so_far.entry) word.now }
{
    let mut options = so_far;
    for piece in word.split(|byte| *byte == b':') {
        options = with_piece(options, piece);
    }
    options
}

/// One piece more; without `=` it has no effect.
fn with_piece<'a>(so_far: OptionWords<'a>, piece: &'a [u8]) -> OptionWords<'a>
    ensures { options_view result ≡ with_halves (options_view so_far.entry) (cut_at 61 piece.now) }
{
    match cut(piece, b'=') {
        Some((name, value)) => with_option(so_far, name, value),
        None => so_far,
    }
}

/// One option more; the last of a name counts.
fn with_option<'a>(so_far: OptionWords<'a>, name: &[u8], value: &'a [u8]) -> OptionWords<'a>
    ensures { options_view result ≡ with_option (options_view so_far.entry) name.now value.now }
{
    let mut options = so_far;
    if is_same(name, b"remapMethod") {
        options.method = Some(value);
    } else if is_same(name, b"weightFile") {
        options.file = Some(value);
    } else if is_same(name, b"srcTermProcessing") {
        options.terms = Some(value);
    }
    options
}

/// Whether two names are the same, without regard to ASCII case.
fn is_same(name: &[u8], other: &[u8]) -> bool
    ensures { result ≡ str_eq_ignore_ascii_case name.now other.now }
{
    name.eq_ignore_ascii_case(other)
}

/// How values go over by these options.
fn transfer_by(line: u32, options: OptionWords<'_>) -> Result<TransferWords<'_>, SeqFault>
    ensures { result_view result ≡ transfer_by line (options_view options.entry) }
{
    let method = method_in(options.method).ok_or(SeqFault::MethodUnsupported { line })?;
    let terms = terms_in(options.terms).ok_or(SeqFault::BadElement { line })?;
    let file = file_in(method, options.file).ok_or(SeqFault::BadElement { line })?;
    Ok(TransferWords {
        method,
        file,
        terms,
    })
}

/// The method that is named, if it is known; `redist` where none is named.
fn method_in(name: Option<&[u8]>) -> Option<Method>
    ensures { result ≡ method_in (option_map (λ n. n.now) name.entry) }
{
    let Some(name) = name else {
        return Some(Method::Redist);
    };
    if is_same(name, b"redist") {
        Some(Method::Redist)
    } else if is_same(name, b"weights") {
        Some(Method::Weights)
    } else {
        None
    }
}

/// The number of terms, 0 where none is given.
fn terms_in(text: Option<&[u8]>) -> Option<i64>
    ensures { result ≡ terms_in (option_map (λ t. t.now) text.entry) }
{
    match text {
        None => Some(0),
        Some(text) => signed_number_word(text),
    }
}

/// The name of the file of weights, which only `weights` has, and must have.
fn file_in(method: Method, file: Option<&[u8]>) -> Option<&[u8]>
    ensures { option_map (λ f. f.now) result ≡ file_in method (option_map (λ f. f.now) file.entry) }
{
    match (method, file) {
        (Method::Redist, _) => Some(b""),
        (Method::Weights, Some([])) => None,
        (Method::Weights, file) => file,
    }
}
