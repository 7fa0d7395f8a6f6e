//! Reading the text of a rule: from its bytes to a tree and its reads, or to its first fault.

ghost use Rattle.std.specs.Prelude.{◌≡◌, ◌<◌, ◌^◌, [], length, option_map, IfOk, IfErr, IsTrue};
ghost use Rattle.cpl_formula.specs.Formulas.{IsAnswer};
ghost use Rattle.cpl_formula.specs.Levels.{TextGives, WalkGives};
ghost use Rattle.cpl_formula.specs.Reads.{AreReads};
ghost use Rattle.cpl_formula.specs.Steps.{outcome_at_end, last_operand, fault_at, parsed_of, start_state, walk};
ghost use Rattle.cpl_formula.specs.Tokens.{tokens_of};
ghost use Rattle.cpl_formula.specs.Tree.{is_over};

use crate::fault::{FormulaFault, Stop};
use crate::formula::{Parsed, Read};
use crate::lexing::{first_token, is_tangled};
use crate::state::{Mode, Part, State};
use crate::steps::{expr_at, here, read_part, step};
use cpl_base::{Many, Text, is_blank};
use indexmap::IndexSet;
use std::alloc::Global;

/// The fault at a token, with the place of the one before it: an offset begins with its minus.
fn fault_at(stop: Stop, before: u32, at: u32) -> FormulaFault
    ensures { result ≡ fault_at stop before at }
{
    match stop {
        Stop::Syntax => FormulaFault::Syntax { at },
        Stop::BadNumber => FormulaFault::BadNumber { at },
        Stop::NameUnknown => FormulaFault::NameUnknown { at },
        Stop::FarNeighbour { minus: true } => FormulaFault::FarNeighbour { at: before },
        Stop::FarNeighbour { minus: false } => FormulaFault::FarNeighbour { at },
        Stop::Memory => FormulaFault::Memory,
    }
}

/// The state behind all tokens of a text, with its reads noted, or the first fault.
fn walk(
    alloc: Global,
    reads: &mut IndexSet<Read>,
    text: &[u8],
    fields: &[Text],
    alarms: &[Text],
) -> Result<State, FormulaFault>
    requires fresh { reads.old.keys ≡ [] }
    requires text { length text.now < 2 ^ 32 }
    requires fields { length fields.now < 2 ^ 16 }
    requires alarms { length alarms.now < 2 ^ 16 }
    ensures gives { WalkGives result reads.new.keys (walk 0 ([], start_state) (tokens_of fields.now alarms.now text.now)) }
    ensures few { IfOk result (λ state. length reads.new.keys < 2 ^ 32) }
{
    let mut state = State::start(alloc);
    let mut before = 0;
    let mut at = 0;
    while at < text.len() {
        let rest = &text[at..];
        if is_blank(rest[0]) {
            at += 1;
        } else {
            let (token, length) = first_token(rest, fields, alarms);
            let here = at as u32;
            match step(alloc, reads, state, token) {
                Ok(next) => state = next,
                Err(stop) => return Err(fault_at(stop, before, here)),
            }
            before = here;
            at += length;
        }
    }
    Ok(state)
}

/// The operand that ends a text, if one does.
fn last_operand(
    alloc: Global,
    reads: &mut IndexSet<Read>,
    mode: Mode,
) -> Result<Option<Part>, FormulaFault>
    requires { length reads.old.keys < 2 ^ 32 }
    ensures ok { IfOk result (λ operand. option_map (λ part. (reads.new.keys, part)) operand ≡ last_operand reads.old.keys mode) }
    ensures err { IfErr result (λ fault. fault ≡ FormulaFault.Memory) }
{
    match mode {
        Mode::Behind(operand) => Ok(Some(operand)),
        Mode::Named(field) => Ok(Some(read_part(alloc, reads, here(field))?)),
        _ => Ok(None),
    }
}

/// What was read of a text that ends here.
fn finished(
    alloc: Global,
    reads: &mut IndexSet<Read>,
    state: State,
    end: u32,
) -> Result<Parsed, FormulaFault>
    requires { length reads.old.keys < 2 ^ 32 }
    ensures { TextGives result (outcome_at_end end state.frames state.level (last_operand reads.old.keys state.mode)) }
{
    let State {
        frames,
        level,
        mode,
    } = state;
    let Some(operand) = last_operand(alloc, reads, mode)? else {
        return Err(FormulaFault::Syntax { at: end });
    };
    if !frames.items().is_empty() {
        return Err(FormulaFault::Syntax { at: end });
    }
    match expr_at(alloc, level, operand)? {
        Part::Deep => Err(FormulaFault::DeepFormula),
        Part::Kept { tree, depth: _ } => {
            let reads = Many::of(Vec::from_slice(alloc, reads.as_slice())?);
            let tree = tree.into_inner();
            Ok(Parsed { tree, reads })
        }
    }
}

/// What reading makes of a text, with its reads noted.
#[tactic(auto, unfolding(crate::specs::Steps::parsed_of))]
fn read(
    alloc: Global,
    reads: &mut IndexSet<Read>,
    text: &[u8],
    fields: &[Text],
    alarms: &[Text],
) -> Result<Parsed, FormulaFault>
    requires fresh { reads.old.keys ≡ [] }
    requires text { length text.now < 2 ^ 32 }
    requires fields { length fields.now < 2 ^ 16 }
    requires alarms { length alarms.now < 2 ^ 16 }
    ensures { TextGives result (parsed_of fields.now alarms.now text.now) }
{
    if is_tangled(text) {
        return Err(FormulaFault::DeepFormula);
    }
    let state = walk(alloc, reads, text, fields, alarms)?;
    finished(alloc, reads, state, text.len() as u32)
}

/// Reads the text of a rule as a formula over fields and alarms of these names. Over given names it takes
/// time in the length of the text, whatever its bytes are: they are gone over once for what may stand
/// nowhere, and once token by token.
///
/// A formula is made of numbers, names, neighbours `field[dx,dy]`, `+`, `-`, `*`, `/`, a minus in front,
/// brackets and the functions `min`, `max`, `abs` and `sel`; chains group from the left, and blanks between
/// tokens, spaces and tabs, don't matter. There are fewer than 2^16 fields and alarms, and the text has fewer
/// than 2^32 bytes. Nothing else is asked of the names: one that is empty is never read, and of names that
/// stand twice the first is meant. So a caller that lets a text read some of its fields alone gives an empty
/// name for each other field, and places are places among all of them.
///
/// Errors: `DeepFormula` where more than 32 `(` are open somewhere or more than 32 minus signs stand in a
/// row; else the fault of the first token with which no formula goes on: `BadNumber` at a number that is no
/// value and `NameUnknown` at a name that stands for nothing, both only where an atom may stand,
/// `FarNeighbour` at an offset past 2, `Syntax` at any other token, and at the text's length where it ends too
/// early; else `DeepFormula` where the depth is above 32; `Memory`.
///
/// Source: this project's own.
pub fn parse(
    alloc: Global,
    text: &[u8],
    fields: &[Text],
    alarms: &[Text],
) -> Result<Parsed, FormulaFault>
    requires text { length text.now < 2 ^ 32 }
    requires fields { length fields.now < 2 ^ 16 }
    requires alarms { length alarms.now < 2 ^ 16 }
    // The answer follows from the derivations of the grammar alone: a formula, or the text's first fault.
    ensures answer { IsAnswer fields.now alarms.now text.now result }
    // What is read can be evaluated at a value for each of its reads.
    ensures over { IfOk result (λ p. IsTrue (is_over (length p.reads) p.tree)) }
    // These are among the names given, each once.
    ensures reads { IfOk result (λ p. AreReads (length fields.now) (length alarms.now) p.reads) }
{
    let mut reads = IndexSet::new(alloc);
    read(alloc, &mut reads, text, fields, alarms)
}
