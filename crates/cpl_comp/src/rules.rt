//! Reading the rules of a component: formulas, and calls of native entries.

ghost use Rattle.std.specs.Prelude.{◌≡◌, ◌<◌, ◌+◌, ◌^◌, [], length, option_map, slice_get, IfOk, IfSome};
ghost use Rattle.std.specs.List.{join_with_byte};
ghost use Rattle.cpl_base.specs.Gives.{Gives};
ghost use Rattle.cpl_formula.specs.Steps.{parsed_of};
ghost use Rattle.cpl_comp.specs.Rules.{arguments_with, entry_of, inputs_in, native_call, native_rule, plain_rule, rule_fault, rule_of};
ghost use Rattle.cpl_comp.specs.Scopes.{AreShort, IsScope};
ghost use Rattle.cpl_comp.specs.Views.{scope_view};

use crate::component::Rule;
use crate::fault::CompFault;
use crate::field_words::is_word;
use crate::scope::Scope;
use cpl_base::{Many, Memory, Text, joined};
use cpl_formula::{Argument, EntrySign, FormulaFault, Parsed, grammar_laws, parse, read_argument};
use sqlite_items::Boxed;
use std::alloc::Global;

/// The rule that words are, or its first fault: a call where the first is `call`, else a formula.
pub(crate) fn rule_of(
    alloc: Global,
    scope: Scope<'_>,
    line: u32,
    words: &[Text],
) -> Result<Rule, CompFault>
    requires scope { IsScope (scope_view scope) }
    requires short { AreShort words.now }
    ensures { Gives CompFault.Memory (λ rule. rule) result (rule_of (scope_view scope.entry) line words.now) }
{
    match words {
        [word, more @ ..] if is_word(word, b"call") => native_rule(alloc, scope, line, more),
        _ => plain_rule(alloc, scope, line, words),
    }
}

/// The formula that words joined by blanks are.
fn plain_rule(alloc: Global, scope: Scope<'_>, line: u32, words: &[Text]) -> Result<Rule, CompFault>
    requires scope { IsScope (scope_view scope) }
    requires short { AreShort words.now }
    ensures { Gives CompFault.Memory (λ rule. rule) result (plain_rule (scope_view scope.entry) line words.now) }
{
    let text = rule_text(alloc, words)?;
    match formula(alloc, scope, text.as_slice()) {
        Ok(parsed) => Ok(Rule::Plain(Boxed::new(alloc, parsed)?)),
        Err(fault) => Err(rule_fault(line, fault)),
    }
}

/// The text of a rule: its words, joined by single blanks.
fn rule_text(alloc: Global, words: &[Text]) -> Result<Vec<u8>, Memory>
    ensures { IfOk result (λ text. text.items ≡ join_with_byte 32 words.now) }
{
    let mut lent = Vec::with_capacity(alloc, words.len())?;
    for word in words {
        lent.push(word.bytes())?;
    }
    joined(alloc, lent.as_slice())
}

/// The formula of a text, as the function that computes it gives it.
fn formula(alloc: Global, scope: Scope<'_>, text: &[u8]) -> Result<Parsed, FormulaFault>
    requires scope { IsScope (scope_view scope) }
    requires short { length text.now < 2 ^ 32 }
    ensures { Gives FormulaFault.Memory (λ parsed. parsed) result (parsed_of (scope_view scope.entry).fields (scope_view scope.entry).alarms text.now) }
{
    grammar_laws();
    parse(alloc, text, scope.fields, scope.alarms)
}

/// The fault of a rule in this line.
fn rule_fault(line: u32, fault: FormulaFault) -> CompFault
    ensures { result ≡ rule_fault line fault }
{
    match fault {
        FormulaFault::Syntax { at } => CompFault::Syntax { line, at },
        FormulaFault::BadNumber { at } => CompFault::BadNumber { line, at },
        FormulaFault::NameUnknown { .. } => CompFault::NameUnknown { line },
        FormulaFault::FarNeighbour { at } => CompFault::FarNeighbour { line, at },
        FormulaFault::DeepFormula => CompFault::DeepFormula { line },
        FormulaFault::Memory => CompFault::Memory,
    }
}

/// The call that the words behind `call` are: a label, and at least one argument.
fn native_rule(
    alloc: Global,
    scope: Scope<'_>,
    line: u32,
    words: &[Text],
) -> Result<Rule, CompFault>
    requires scope { IsScope (scope_view scope) }
    requires short { length (join_with_byte 32 words.now) + 5 < 2 ^ 32 }
    ensures { Gives CompFault.Memory (λ rule. rule) result (native_rule (scope_view scope.entry) line words.now) }
{
    match words {
        [] => Err(CompFault::Syntax { line, at: 4 }),
        [label] => {
            let at = 5 + label.bytes().len() as u32;
            Err(CompFault::Syntax { line, at })
        }
        [label, more @ ..] => {
            let at = 6 + label.bytes().len() as u32;
            match arguments_of(alloc, scope, at, more) {
                Ok(arguments) => native_call(scope.signs, line, label.bytes(), arguments),
                Err(fault) => Err(rule_fault(line, fault)),
            }
        }
    }
}

/// The arguments that words are, of which the first begins at this place of the rule's text.
fn arguments_of(
    alloc: Global,
    scope: Scope<'_>,
    at: u32,
    words: &[Text],
) -> Result<Many<Argument>, FormulaFault>
    requires scope { IsScope (scope_view scope) }
    requires short { at + length (join_with_byte 32 words.now) < 2 ^ 32 }
    ensures { Gives FormulaFault.Memory (λ arguments. arguments) result (arguments_with (scope_view scope.entry) [] at words.now) }
{
    let mut arguments = Vec::with_capacity(alloc, words.len())?;
    let mut place = u64::from(at);
    for word in words {
        let argument = read_argument(word.bytes(), place as u32, scope.fields, scope.alarms)?;
        arguments.push(argument)?;
        place += word.bytes().len() as u64 + 1;
    }
    Ok(Many::of(arguments))
}

/// A call of the entry of this label with these arguments.
fn native_call(
    signs: &[EntrySign],
    line: u32,
    label: &[u8],
    arguments: Many<Argument>,
) -> Result<Rule, CompFault>
    requires { length signs.now < 2 ^ 16 }
    ensures { result ≡ native_call signs.now line arguments (entry_of signs.now label.now) }
{
    let Some((entry, inputs)) = entry_of(signs, label) else {
        return Err(CompFault::EntryUnknown { line });
    };
    if usize::from(inputs) != arguments.items().len() {
        return Err(CompFault::InputsDiffer { line });
    }
    Ok(Rule::Native {
        entry,
        reads: arguments,
    })
}

/// The place of the first entry of a label, if there is one, and how many inputs it takes.
fn entry_of(signs: &[EntrySign], label: &[u8]) -> Option<(u16, u8)>
    requires { length signs.now < 2 ^ 16 }
    ensures place { option_map (λ entry. entry.0) result ≡ entry_of signs.now label.now }
    ensures inputs { IfSome result (λ entry. inputs_in (slice_get signs.now entry.0) ≡ entry.1) }
{
    let place = entry_place(signs, label)?;
    Some((place as u16, signs[place].inputs))
}

/// The place of the first entry of a label, if there is one.
fn entry_place(signs: &[EntrySign], label: &[u8]) -> Option<usize>
    ensures place { result ≡ entry_of signs.now label.now }
    ensures below { IfSome result (λ place. place < length signs.now) }
{
    signs.iter().position(|sign| sign.label.bytes() == label)
}
