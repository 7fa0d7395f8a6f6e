//! The field dictionary, row by row.

ghost use Rattle.std.specs.Prelude.{◌≡◌, []};
ghost use Rattle.std.specs.List.{list_all};
ghost use Rattle.cpl_base.specs.Gives.{Gives};
ghost use Rattle.cpl_head.specs.Dictionaries.{dict_fault, dictionary_of, is_standard_name, is_synonym, with_name_row, with_synonym_row, with_words};

use crate::fault::TableFault;
use crate::labels::rows_under;
use cpl_base::Text;
use cpl_config::{Items, Row};
use cpl_dict::{Dict, DictFault};
use std::alloc::Global;

/// A standard name has at most so many bytes.
const MOST_STANDARD_BYTES: usize = 64;

/// Reads the field dictionary from its table `dictionary`; without the table it is empty. Time is linear in the
/// table's length.
///
/// A row `name units` adds a standard name, a word of at most 64 bytes other than `synonym`, with its units, one
/// word. A row `synonym a b ..` lets two or more standard names stand for one another.
///
/// Errors: that of the first faulty row, with its line: `BadValue` where it has none of these forms; `NameTwice`
/// where the name is there already; `NameUnknown` where one of the synonyms isn't there, else `UnitsDiffer` where
/// two of them have unequal units. `Memory` where memory runs out.
///
/// Source: NUOPC Layer Reference, Field Dictionary; rows and refusals are this project's own.
#[tactic(auto, unfolding(crate::specs::Dictionaries::dictionary_of))]
pub fn read_dictionary(alloc: Global, items: &Items) -> Result<Dict, TableFault>
    ensures { Gives TableFault.Memory (λ dict. dict) result (dictionary_of items.now) }
{
    let mut dict = Dict::new(alloc);
    for row in rows_under(items, b"dictionary") {
        add_words(alloc, &mut dict, row.line, row.words.items())?;
    }
    Ok(dict)
}

/// Adds what the words of the row in a line say.
fn add_words(alloc: Global, dict: &mut Dict, line: u32, words: &[Text]) -> Result<(), TableFault>
    ensures { Gives TableFault.Memory (λ _. dict.new) result (with_words dict.old line words.now) }
{
    match words {
        [] => Err(TableFault::BadValue { line }),
        [first, names @ ..] => {
            if is_synonym(first) {
                add_synonyms(dict, line, names)
            } else {
                add_name(alloc, dict, line, words)
            }
        }
    }
}

/// Adds the name and the units that are all the words of a row.
fn add_name(alloc: Global, dict: &mut Dict, line: u32, words: &[Text]) -> Result<(), TableFault>
    ensures { Gives TableFault.Memory (λ _. dict.new) result (with_name_row dict.old line words.now) }
{
    let [name, units] = words else {
        return Err(TableFault::BadValue { line });
    };
    if !is_standard_name(name) {
        return Err(TableFault::BadValue { line });
    }
    match dict.add(name.copy(alloc)?, units.copy(alloc)?) {
        Ok(()) => Ok(()),
        Err(fault) => Err(dict_fault(line, fault)),
    }
}

/// Adds names that stand for one another.
fn add_synonyms(dict: &mut Dict, line: u32, names: &[Text]) -> Result<(), TableFault>
    ensures { Gives TableFault.Memory (λ _. dict.new) result (with_synonym_row dict.old line names.now) }
{
    if names.len() < 2 || !are_standard_names(names) {
        return Err(TableFault::BadValue { line });
    }
    match dict.synonym(names) {
        Ok(()) => Ok(()),
        Err(fault) => Err(dict_fault(line, fault)),
    }
}

/// Why the dictionary refuses the row in a line.
fn dict_fault(line: u32, fault: DictFault) -> TableFault
    ensures { result ≡ dict_fault line fault }
{
    match fault {
        DictFault::NameTwice => TableFault::NameTwice { line },
        DictFault::NameUnknown => TableFault::NameUnknown { line },
        DictFault::UnitsDiffer => TableFault::UnitsDiffer { line },
        DictFault::Memory => TableFault::Memory,
    }
}

/// Whether all words are standard names.
fn are_standard_names(words: &[Text]) -> bool
    ensures { result ≡ list_all is_standard_name words.now }
{
    words.iter().all(|word| is_standard_name(word))
}

/// Whether a word is a standard name.
fn is_standard_name(word: &Text) -> bool
    ensures { result ≡ is_standard_name word.now }
{
    word.bytes().len() <= MOST_STANDARD_BYTES && !is_synonym(word)
}

/// Whether a word is the one in front of names that stand for one another.
fn is_synonym(word: &Text) -> bool
    ensures { result ≡ is_synonym word.now }
{
    word.bytes() == b"synonym".as_slice()
}
