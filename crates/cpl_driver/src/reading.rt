//! Reading the bytes of a resource file as a system: one model on one cell.

ghost use Rattle.std.specs.Prelude.{◌≡◌, ◌<◌, ◌^◌, [], ◌∷◌, IfOk, IfSome, IsTrue, length};
ghost use Rattle.std.specs.List.{list_all};
ghost use Rattle.cpl_base.specs.Gives.{Gives};
ghost use Rattle.cpl_base.specs.Numbers.{IsValue};
ghost use Rattle.cpl_formula.specs.Steps.{parsed_of};
ghost use Rattle.cpl_formula.specs.Tree.{is_over};
ghost use Rattle.cpl_driver.specs.Files.{component_of, is_field_read, is_loop, is_one_cell, is_plain, is_sum_byte, loop_in, loop_of, rule_of, sum_of, system_in, system_of, variable_of};
ghost use Rattle.cpl_base.specs.Words.{texts};
ghost use Rattle.cpl_driver.specs.Names.{constant_of};
ghost use Rattle.cpl_driver.specs.Reads.{Reads, IsSound, line_texts};

use crate::items::{
    assignment, closes_table, is_word, labelled, line_at, lines, opens_table, single, values,
};
use crate::system::{Loop, System};
use crate::unread::Unread;
use cpl_base::{
    Memory, Text, cut, is_name, is_name_byte, joined, number_word, read_val, rest_behind,
};
use cpl_formula::{FormulaFault, Parsed, Read, ReadName, grammar_laws, is_field_name, parse};
use std::alloc::Global;

/// So many lines with words has a file that describes one model on one cell.
const LINES: usize = 13;

/// The text of a formula has fewer bytes than this: 2^32.
const TEXT_LIMIT: usize = 4_294_967_296;

/// The system that the bytes of a file describe.
///
/// Errors: `NotYetBuilt` exactly where the bytes are of another form.
#[tactic(auto, unfolding(crate::specs::Files::system_of))]
pub fn read_system(alloc: Global, bytes: &[u8]) -> Result<System, Unread>
    ensures system { Reads (λ system. system) result (system_of bytes.now) }
    ensures sound { IfOk result IsSound }
{
    if !is_plain_text(bytes) {
        return Err(Unread::NotYetBuilt);
    }
    let lines = lines(alloc, bytes)?;
    read_lines(alloc, lines.as_slice())
}

/// Whether a byte may stand in a file of this form: LF, or a byte from the space to `~` but for `#`.
fn is_plain(byte: u8) -> bool
    ensures { result ≡ is_plain byte }
{
    byte == b'\n' || (b' ' <= byte && byte <= b'~' && byte != b'#')
}

/// Whether each byte may stand in a file of this form.
fn is_plain_text(bytes: &[u8]) -> bool
    ensures { result ≡ list_all is_plain bytes.now }
{
    bytes.iter().all(|byte| is_plain(*byte))
}

/// The system that thirteen lines describe.
#[tactic(auto, unfolding(crate::specs::Files::system_in))]
fn read_lines(alloc: Global, lines: &[Vec<&[u8]>]) -> Result<System, Unread>
    ensures system { Reads (λ system. system) result (system_in (line_texts lines.now)) }
    ensures sound { IfOk result IsSound }
{
    if lines.len() != LINES {
        return Err(Unread::NotYetBuilt);
    }
    let component = component(alloc, line_at(lines, 0))?;
    if !is_one_cell(alloc, component, line_at(lines, 1))? {
        return Err(Unread::NotYetBuilt);
    }
    let (field, start) = variable(alloc, component, lines)?;
    let rule = rule(alloc, component, field, lines)?;
    let sequence = sequence(alloc, component, lines)?;
    Ok(System {
        component: Text::of(alloc, component)?,
        field: Text::of(alloc, field)?,
        start,
        rule,
        sequence,
    })
}

/// The component of the value item `EARTH_component_list:`, where it names one.
fn component<'a>(alloc: Global, line: &[&'a [u8]]) -> Result<&'a [u8], Unread>
    ensures { Reads (λ name. name.now) result (component_of (texts line.now)) }
{
    let values = values(alloc, b"EARTH_component_list", line)?.ok_or(Unread::NotYetBuilt)?;
    let name = single(values.as_slice()).ok_or(Unread::NotYetBuilt)?;
    if !is_name(name) {
        return Err(Unread::NotYetBuilt);
    }
    Ok(name)
}

/// Whether a line is the value item of the component's grid, of one cell.
fn is_one_cell(alloc: Global, component: &[u8], line: &[&[u8]]) -> Result<bool, Memory>
    ensures { IfOk result (λ holds. holds ≡ is_one_cell component.now (texts line.now)) }
{
    let label = labelled(alloc, component, b"_grid")?;
    let Some(values) = values(alloc, label.as_slice(), line)? else {
        return Ok(false);
    };
    match values.as_slice() {
        [columns, rows @ ..] => Ok(*columns == b"1".as_slice() && is_word(b"1", rows)),
        [] => Ok(false),
    }
}

/// A number without a minus.
fn constant(word: &[u8]) -> Option<i64>
    ensures value { result ≡ constant_of word.now }
    ensures within { IfSome result IsValue }
{
    if let [b'-', ..] = word {
        return None;
    }
    read_val(word).ok()
}

/// The field of the table of the variables and its start: one row, `FIELD = NUMBER`.
#[tactic(auto, unfolding(crate::specs::Files::variable_of))]
fn variable<'a>(
    alloc: Global,
    component: &[u8],
    lines: &'a [Vec<&'a [u8]>],
) -> Result<(&'a [u8], i64), Unread>
    requires { length lines.now ≡ 13 }
    ensures variable { Reads (λ found. (found.0.now, found.1)) result (variable_of component.now (line_texts lines.entry.now)) }
    ensures within { IfOk result (λ found. IsValue found.1) }
{
    let label = labelled(alloc, component, b"_vars")?;
    if !opens_table(alloc, label.as_slice(), line_at(lines, 2))? {
        return Err(Unread::NotYetBuilt);
    }
    let (field, rule) = assignment(line_at(lines, 3)).ok_or(Unread::NotYetBuilt)?;
    if !is_field_name(field) {
        return Err(Unread::NotYetBuilt);
    }
    let word = single(rule).ok_or(Unread::NotYetBuilt)?;
    let start = constant(word).ok_or(Unread::NotYetBuilt)?;
    if !closes_table(line_at(lines, 4)) {
        return Err(Unread::NotYetBuilt);
    }
    Ok((field, start))
}

/// Whether a byte may stand in a sum: one of a name, a point, a blank or `+`.
fn is_sum_byte(byte: u8) -> bool
    ensures { result ≡ is_sum_byte byte }
{
    is_name_byte(byte) || matches!(byte, b'.' | b' ' | b'+')
}

/// Whether each byte may stand in a sum.
fn are_sum_bytes(bytes: &[u8]) -> bool
    ensures { result ≡ list_all is_sum_byte bytes.now }
{
    bytes.iter().all(|byte| is_sum_byte(*byte))
}

/// Whether a field is read.
fn is_field_read(read: &Read) -> bool
    ensures { result ≡ is_field_read read.now }
{
    matches!(read.name, ReadName::Field(_))
}

/// Whether each read is that of a field.
fn are_field_reads(reads: &[Read]) -> bool
    ensures { result ≡ list_all is_field_read reads.now }
{
    reads.iter().all(|read| is_field_read(read))
}

/// What the text of a rule is over this field, as the function that computes it gives it.
fn formula(alloc: Global, field: Text, text: &[u8]) -> Result<Parsed, FormulaFault>
    requires { length text.now < 2 ^ 32 }
    ensures gives { Gives FormulaFault.Memory (λ p. p) result (parsed_of (field ∷ []) [] text.now) }
    ensures over { IfOk result (λ rule. IsTrue (is_over (length rule.reads) rule.tree)) }
{
    grammar_laws();
    let fields = [field];
    parse(alloc, text, &fields, &[])
}

/// A rule over this field: one to 32 numbers and names of the field, joined by `+`.
#[tactic(auto, unfolding(crate::specs::Files::sum_of))]
fn sum(alloc: Global, field: &[u8], text: &[u8]) -> Result<Parsed, Unread>
    ensures sum { Reads (λ rule. rule) result (sum_of field.now text.now) }
    ensures over { IfOk result (λ rule. IsTrue (is_over (length rule.reads) rule.tree)) }
{
    if !are_sum_bytes(text) || text.len() >= TEXT_LIMIT {
        return Err(Unread::NotYetBuilt);
    }
    let rule = formula(alloc, Text::of(alloc, field)?, text)?;
    if !are_field_reads(rule.reads.items()) {
        return Err(Unread::NotYetBuilt);
    }
    Ok(rule)
}

/// The rule of the table of the phase: one row, `FIELD = FORMULA`.
#[tactic(auto, unfolding(crate::specs::Files::rule_of))]
fn rule(
    alloc: Global,
    component: &[u8],
    field: &[u8],
    lines: &[Vec<&[u8]>],
) -> Result<Parsed, Unread>
    requires { length lines.now ≡ 13 }
    ensures rule { Reads (λ rule. rule) result (rule_of component.now field.now (line_texts lines.now)) }
    ensures over { IfOk result (λ rule. IsTrue (is_over (length rule.reads) rule.tree)) }
{
    let label = labelled(alloc, component, b"_phase_run")?;
    if !opens_table(alloc, label.as_slice(), line_at(lines, 5))? {
        return Err(Unread::NotYetBuilt);
    }
    let (assigned, words) = assignment(line_at(lines, 6)).ok_or(Unread::NotYetBuilt)?;
    if assigned != field {
        return Err(Unread::NotYetBuilt);
    }
    let text = joined(alloc, words)?;
    let rule = sum(alloc, field, text.as_slice())?;
    if !closes_table(line_at(lines, 7)) {
        return Err(Unread::NotYetBuilt);
    }
    Ok(rule)
}

/// Whether a step divides its loop's duration into fewer than 2^24 iterations.
fn is_loop(step: u64, duration: u64) -> bool
    ensures { result ≡ is_loop step duration }
{
    1 <= step
        && step <= 1_000_000_000
        && 1 <= duration
        && duration <= 100_000_000_000
        && duration % step == 0
        && duration / step < 1 << 24
}

/// The loop that a row `@STEP:DURATION` opens.
#[tactic(auto, unfolding(crate::specs::Files::loop_in))]
fn loop_of_row(row: &[&[u8]]) -> Option<Loop>
    ensures row { result ≡ loop_in (texts row.now) }
    ensures loops { IfSome result (λ found. IsTrue (is_loop found.step found.duration)) }
{
    let numbers = rest_behind(b"@", single(row)?)?;
    let (step, duration) = cut(numbers, b':')?;
    let step = number_word(step)?;
    let duration = number_word(duration)?;
    is_loop(step, duration).then_some(Loop { step, duration })
}

/// The run sequence: one loop around a run of the component.
#[tactic(auto, unfolding(crate::specs::Files::loop_of))]
fn sequence(alloc: Global, component: &[u8], lines: &[Vec<&[u8]>]) -> Result<Loop, Unread>
    requires { length lines.now ≡ 13 }
    ensures sequence { Reads (λ sequence. sequence) result (loop_of component.now (line_texts lines.now)) }
    ensures loops { IfOk result (λ sequence. IsTrue (is_loop sequence.step sequence.duration)) }
{
    if !opens_table(alloc, b"runSeq", line_at(lines, 8))? {
        return Err(Unread::NotYetBuilt);
    }
    let sequence = loop_of_row(line_at(lines, 9)).ok_or(Unread::NotYetBuilt)?;
    if !is_word(component, line_at(lines, 10))
        || !is_word(b"@", line_at(lines, 11))
        || !closes_table(line_at(lines, 12))
    {
        return Err(Unread::NotYetBuilt);
    }
    Ok(sequence)
}
