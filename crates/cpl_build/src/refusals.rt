//! Which refusal each fault of the readers is, as the number and the words that are printed of it.

ghost use Rattle.std.specs.Prelude.{◌≡◌, ◌∷◌, [], decimal, map, unsigned_abs, IfErr, IfOk};
ghost use Rattle.cpl_build.specs.Refusals.{IsOrMemory, comp_refusal, field_name_at, field_word, fields_at, head_refusal, item_refusal, match_refusal, name_at, named_refusal, not_ascii, number_refusal, numbers_refusal, refusal, sequence_refusal, system_refusal, table_refusal, too_long, too_many_values, trace_too_long, waiting_refusal, weight_refusal};

use crate::fault::Rejection;
use cpl_base::{Many, Memory, Text, write_number};
use cpl_comp::{Comp, CompFault, Field};
use cpl_config::ItemFault;
use cpl_head::{HeadFault, TableFault};
use cpl_match::MatchFault;
use cpl_report::Refusal;
use cpl_runseq::SeqFault;
use cpl_script::SystemFault;
use cpl_smm::WeightFault;
use std::alloc::Global;

// ---- the forms of refusals

/// The refusal of a number with words, or want of memory.
fn refused(number: u8, words: Result<Vec<Text>, Memory>) -> Rejection
    ensures memory { IfErr words (λ _. result ≡ Rejection.Memory) }
    ensures refusal { IfOk words (λ list. result ≡ refusal number list.items) }
{
    match words {
        Ok(words) => Rejection::Refused(Refusal {
            number,
            words: Many::of(words),
        }),
        Err(Memory) => Rejection::Memory,
    }
}

/// A number in decimal.
fn decimal(alloc: Global, number: u128) -> Result<Text, Memory>
    ensures { IfOk result (λ text. text ≡ decimal number) }
{
    let mut digits = Vec::new(alloc);
    write_number(&mut digits, number)?;
    Ok(Text::from_vec(digits))
}

/// One word.
fn one_word(alloc: Global, word: Text) -> Result<Vec<Text>, Memory>
    ensures { IfOk result (λ words. words.items ≡ word ∷ []) }
{
    let mut words = Vec::with_capacity(alloc, 1)?;
    words.push(word)?;
    Ok(words)
}

/// Two words.
fn two_words(alloc: Global, first: Text, second: Text) -> Result<Vec<Text>, Memory>
    ensures { IfOk result (λ words. words.items ≡ first ∷ second ∷ []) }
{
    let mut words = Vec::with_capacity(alloc, 2)?;
    words.push(first)?;
    words.push(second)?;
    Ok(words)
}

/// Three words.
fn three_words(alloc: Global, first: Text, second: Text, third: Text) -> Result<Vec<Text>, Memory>
    ensures { IfOk result (λ words. words.items ≡ first ∷ second ∷ third ∷ []) }
{
    let mut words = Vec::with_capacity(alloc, 3)?;
    words.push(first)?;
    words.push(second)?;
    words.push(third)?;
    Ok(words)
}

/// A number as the one word.
fn number_words(alloc: Global, number: u128) -> Result<Vec<Text>, Memory>
    ensures { IfOk result (λ words. words.items ≡ decimal number ∷ []) }
{
    one_word(alloc, decimal(alloc, number)?)
}

/// Two numbers as words.
fn numbers_words(alloc: Global, first: u128, second: u128) -> Result<Vec<Text>, Memory>
    ensures { IfOk result (λ words. words.items ≡ decimal first ∷ decimal second ∷ []) }
{
    two_words(alloc, decimal(alloc, first)?, decimal(alloc, second)?)
}

/// A name and a number as words.
fn named_words(alloc: Global, name: &[u8], number: u64) -> Result<Vec<Text>, Memory>
    ensures { IfOk result (λ words. words.items ≡ name.now ∷ decimal number ∷ []) }
{
    two_words(
        alloc,
        Text::of(alloc, name)?,
        decimal(alloc, u128::from(number))?,
    )
}

/// A refusal that says a number.
fn of_number(alloc: Global, number: u8, said: u64) -> Rejection
    ensures { IsOrMemory (number_refusal number said) result }
{
    refused(number, number_words(alloc, u128::from(said)))
}

/// A refusal that says a line.
fn of_line(alloc: Global, number: u8, line: u32) -> Rejection
    ensures { IsOrMemory (number_refusal number line) result }
{
    of_number(alloc, number, u64::from(line))
}

/// A refusal that says a line and a place in a rule's text.
fn of_place(alloc: Global, number: u8, line: u32, at: u32) -> Rejection
    ensures { IsOrMemory (numbers_refusal number line at) result }
{
    refused(
        number,
        numbers_words(alloc, u128::from(line), u128::from(at)),
    )
}

/// A refusal that says a name and a number.
fn of_named(alloc: Global, number: u8, name: &[u8], said: u64) -> Rejection
    ensures { IsOrMemory (named_refusal number name.now said) result }
{
    refused(number, named_words(alloc, name, said))
}

/// A refusal that says a word.
fn of_word(alloc: Global, number: u8, word: Text) -> Rejection
    ensures { IsOrMemory (refusal number (word ∷ [])) result }
{
    refused(number, one_word(alloc, word))
}

/// A refusal that says a name.
fn of_name(alloc: Global, number: u8, name: &[u8]) -> Rejection
    ensures { IsOrMemory (refusal number (name.now ∷ [])) result }
{
    match Text::of(alloc, name) {
        Ok(word) => of_word(alloc, number, word),
        Err(Memory) => Rejection::Memory,
    }
}

// ---- the file as a whole

/// A file that is too long.
pub(crate) fn too_long(alloc: Global, name: &[u8]) -> Rejection
    ensures { IsOrMemory (too_long name.now) result }
{
    of_name(alloc, 1, name)
}

/// A line with a byte that isn't allowed.
pub(crate) fn not_ascii(alloc: Global, line: u32) -> Rejection
    ensures { IsOrMemory (not_ascii line) result }
{
    of_line(alloc, 2, line)
}

/// Lines that are no items.
pub(crate) fn item_refusal(alloc: Global, fault: ItemFault) -> Rejection
    ensures { IsOrMemory (item_refusal fault) result }
{
    match fault {
        ItemFault::BadLine { line } => of_line(alloc, 3, line),
        ItemFault::StrayClose { line } => of_line(alloc, 4, line),
        ItemFault::LabelTwice { line } => of_line(alloc, 5, line),
        ItemFault::Unclosed { line } => of_line(alloc, 6, line),
        ItemFault::Memory => Rejection::Memory,
    }
}

/// What is said of the run as a whole.
pub(crate) fn head_refusal(alloc: Global, fault: HeadFault) -> Rejection
    ensures { IsOrMemory (head_refusal fault) result }
{
    match fault {
        HeadFault::MissingLabel { label } => of_word(alloc, 7, label),
        HeadFault::BadValue { line } => of_line(alloc, 8, line),
        HeadFault::TooManyComponents { count } => of_number(alloc, 9, count),
        HeadFault::BadTime { line } => of_line(alloc, 10, line),
        HeadFault::YearRange { line } => of_line(alloc, 11, line),
        HeadFault::NoSuchDay { line } => of_line(alloc, 12, line),
        HeadFault::StopNotAfter { line } => of_line(alloc, 13, line),
        HeadFault::Memory => Rejection::Memory,
    }
}

/// Rows of the dictionary and of the alarms.
pub(crate) fn table_refusal(alloc: Global, fault: TableFault) -> Rejection
    ensures { IsOrMemory (table_refusal fault) result }
{
    match fault {
        TableFault::BadValue { line } => of_line(alloc, 8, line),
        TableFault::NameTwice { line } => of_line(alloc, 14, line),
        TableFault::NameUnknown { line } => of_line(alloc, 15, line),
        TableFault::UnitsDiffer { line } => of_line(alloc, 16, line),
        TableFault::Memory => Rejection::Memory,
    }
}

// ---- components

/// The component of a name.
pub(crate) fn comp_refusal(alloc: Global, name: &[u8], fault: CompFault) -> Rejection
    ensures { IsOrMemory (comp_refusal name.now fault) result }
{
    match fault {
        CompFault::BadValue { line } => of_line(alloc, 8, line),
        CompFault::PetOutOfRange { line } => of_line(alloc, 17, line),
        CompFault::FieldTwice { line } => of_line(alloc, 19, line),
        CompFault::StandardUnknown { line } => of_line(alloc, 18, line),
        CompFault::UnitsDiffer { line } => of_line(alloc, 16, line),
        CompFault::TooManyFields { count } => of_named(alloc, 20, name, count),
        CompFault::PhaseTwice { line } => of_line(alloc, 21, line),
        CompFault::TooManyPhases { count } => of_named(alloc, 22, name, count),
        CompFault::NoGrid => of_name(alloc, 23, name),
        CompFault::TooManyCells { line } => of_line(alloc, 24, line),
        CompFault::BlocksMismatch { blocks, pets } => refused(
            25,
            blocks_words(alloc, name, blocks, pets),
        ),
        CompFault::MissingLabel { label } => of_word(alloc, 7, label),
        CompFault::NameUnknown { line } => of_line(alloc, 15, line),
        CompFault::Syntax { line, at } => of_place(alloc, 26, line, at),
        CompFault::BadNumber { line, at } => of_place(alloc, 27, line, at),
        CompFault::FarNeighbour { line, at } => of_place(alloc, 28, line, at),
        CompFault::DeepFormula { line } => of_line(alloc, 29, line),
        CompFault::EntryUnknown { line } => of_line(alloc, 30, line),
        CompFault::InputsDiffer { line } => of_line(alloc, 31, line),
        CompFault::Memory => Rejection::Memory,
    }
}

/// A component's name, how many blocks it has and how many PETs, as words.
fn blocks_words(alloc: Global, name: &[u8], blocks: u64, pets: u8) -> Result<Vec<Text>, Memory>
    ensures { IfOk result (λ words. words.items ≡ name.now ∷ decimal blocks ∷ decimal pets ∷ []) }
{
    let name = Text::of(alloc, name)?;
    let blocks = decimal(alloc, u128::from(blocks))?;
    let pets = decimal(alloc, u128::from(pets))?;
    three_words(alloc, name, blocks, pets)
}

/// Components of too many values.
pub(crate) fn too_many_values(alloc: Global, count: u64) -> Rejection
    ensures { IsOrMemory (too_many_values count) result }
{
    of_number(alloc, 32, count)
}

// ---- the run sequence

/// Rows that are no run sequence.
pub(crate) fn sequence_refusal(alloc: Global, fault: SeqFault) -> Rejection
    ensures { IsOrMemory (sequence_refusal fault) result }
{
    match fault {
        SeqFault::BadElement { line } => of_line(alloc, 33, line),
        SeqFault::LoopStray { line } => of_line(alloc, 34, line),
        SeqFault::OutsideLoop { line } => of_line(alloc, 35, line),
        SeqFault::LoopTooDeep { line } => of_line(alloc, 36, line),
        SeqFault::BadStep { line } => of_line(alloc, 37, line),
        SeqFault::StepUnset { line } => of_line(alloc, 38, line),
        SeqFault::StepUneven { line } => of_line(alloc, 39, line),
        SeqFault::ComponentUnknown { line } => of_line(alloc, 40, line),
        SeqFault::PhaseUnknown { line } => of_line(alloc, 41, line),
        SeqFault::SubstepUneven { line } => of_line(alloc, 42, line),
        SeqFault::SelfLink { line } => of_line(alloc, 43, line),
        SeqFault::MethodUnsupported { line } => of_line(alloc, 44, line),
        SeqFault::OptionsDiffer { line } => of_line(alloc, 45, line),
        SeqFault::LoopUnclosed { line } => of_line(alloc, 46, line),
        SeqFault::DurationMissing { line } => of_line(alloc, 47, line),
        SeqFault::SpanMismatch { have, want } => {
            refused(
                48,
                numbers_words(alloc, have, u128::from(want.unsigned_abs())),
            )
        }
        SeqFault::SpanTooLong { span } => refused(49, number_words(alloc, span)),
        SeqFault::Memory => Rejection::Memory,
    }
}

// ---- matching, and the order of initialisation

/// The name of the component of a place.
fn name_at(comps: &[Comp], component: u8) -> &[u8]
    ensures { result.now ≡ name_at comps.entry.now component }
{
    match comps.get(usize::from(component)) {
        Some(comp) => comp.name.bytes(),
        None => &[],
    }
}

/// The fields of the component of a place.
fn fields_at(comps: &[Comp], component: u8) -> &[Field]
    ensures { result.now ≡ fields_at comps.entry.now component }
{
    match comps.get(usize::from(component)) {
        Some(comp) => comp.fields.items(),
        None => &[],
    }
}

/// The name of a field by its place.
fn field_name_at(fields: &[Field], field: u16) -> &[u8]
    ensures { result.now ≡ field_name_at fields.entry.now field }
{
    match fields.get(usize::from(field)) {
        Some(field) => field.name.bytes(),
        None => &[],
    }
}

/// The name of a component and that of its field, a point between them.
fn field_word(alloc: Global, comps: &[Comp], component: u8, field: u16) -> Result<Text, Memory>
    ensures { IfOk result (λ word. word ≡ field_word comps.now component field) }
{
    let mut word = Vec::new(alloc);
    word.extend_from_slice(name_at(comps, component))?;
    word.extend_from_slice(b".")?;
    word.extend_from_slice(field_name_at(fields_at(comps, component), field))?;
    Ok(Text::from_vec(word))
}

/// Imports that aren't matched.
pub(crate) fn match_refusal(alloc: Global, comps: &[Comp], fault: MatchFault) -> Rejection
    ensures { IsOrMemory (match_refusal comps.now fault) result }
{
    match fault {
        MatchFault::Ambiguous {
            dst,
            field,
            first,
            second,
        } => refused(
            50,
            ambiguous_words(alloc, comps, (dst, field), first, second),
        ),
        MatchFault::Unmatched { dst, field } => refused(
            51,
            unmatched_words(alloc, comps, dst, field),
        ),
        MatchFault::SizeDiffers { src, dst } => refused(52, sizes_words(alloc, comps, src, dst)),
        MatchFault::Memory => Rejection::Memory,
    }
}

/// An import and two exports as words, each given by its component and its field.
fn ambiguous_words(
    alloc: Global,
    comps: &[Comp],
    import: (u8, u16),
    first: (u8, u16),
    second: (u8, u16),
) -> Result<Vec<Text>, Memory>
    ensures { IfOk result (λ words. words.items ≡ field_word comps.now import.0 import.1 ∷ field_word comps.now first.0 first.1 ∷ field_word comps.now second.0 second.1 ∷ []) }
{
    let import = field_word(alloc, comps, import.0, import.1)?;
    let first = field_word(alloc, comps, first.0, first.1)?;
    let second = field_word(alloc, comps, second.0, second.1)?;
    three_words(alloc, import, first, second)
}

/// An import as the one word.
fn unmatched_words(alloc: Global, comps: &[Comp], dst: u8, field: u16) -> Result<Vec<Text>, Memory>
    ensures { IfOk result (λ words. words.items ≡ field_word comps.now dst field ∷ []) }
{
    one_word(alloc, field_word(alloc, comps, dst, field)?)
}

/// The names of two components as words.
fn sizes_words(alloc: Global, comps: &[Comp], src: u8, dst: u8) -> Result<Vec<Text>, Memory>
    ensures { IfOk result (λ words. words.items ≡ name_at comps.now src ∷ name_at comps.now dst ∷ []) }
{
    let src = Text::of(alloc, name_at(comps, src))?;
    let dst = Text::of(alloc, name_at(comps, dst))?;
    two_words(alloc, src, dst)
}

/// Components that wait for one another.
pub(crate) fn waiting_refusal(alloc: Global, comps: &[Comp], numbers: &[u8]) -> Rejection
    ensures { IsOrMemory (waiting_refusal comps.now numbers.now) result }
{
    refused(53, names_at(alloc, comps, numbers))
}

/// The names of components as words.
fn names_at(alloc: Global, comps: &[Comp], numbers: &[u8]) -> Result<Vec<Text>, Memory>
    ensures { IfOk result (λ words. words.items ≡ map (name_at comps.now) numbers.now) }
{
    let mut words = Vec::with_capacity(alloc, numbers.len())?;
    for number in numbers {
        words.push(Text::of(alloc, name_at(comps, *number))?)?;
    }
    Ok(words)
}

// ---- weights, and the size of the system

/// Records of a file of weights.
pub(crate) fn weight_refusal(alloc: Global, file: &[u8], fault: WeightFault) -> Rejection
    ensures { IsOrMemory (weight_refusal file.now fault) result }
{
    match fault {
        WeightFault::BadRecord { n } => of_named(alloc, 54, file, n),
        WeightFault::IndexRange { n } => of_named(alloc, 55, file, n),
        WeightFault::WeightRange { n } => of_named(alloc, 56, file, n),
        WeightFault::PairTwice { n } => of_named(alloc, 57, file, n),
        WeightFault::TooManyWeights { n } => of_named(alloc, 58, file, n),
        WeightFault::Memory => Rejection::Memory,
    }
}

/// A system that is too large.
pub(crate) fn system_refusal(alloc: Global, fault: SystemFault) -> Rejection
    ensures { IsOrMemory (system_refusal fault) result }
{
    match fault {
        SystemFault::TooManyOps { count } => of_number(alloc, 59, count),
        SystemFault::TooManyRoutes { count } => of_number(alloc, 60, count),
        SystemFault::Memory => Rejection::Memory,
    }
}

/// A trace of too many rows.
pub(crate) fn trace_too_long(alloc: Global, count: u64) -> Rejection
    ensures { IsOrMemory (trace_too_long count) result }
{
    of_number(alloc, 61, count)
}
