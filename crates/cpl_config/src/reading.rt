//! Reading the lines of a resource file as its items, line by line.

ghost use Rattle.std.specs.Prelude.{◌≡◌, ◌-◌, ◌^◌, ◌<◌, length, map, option_map, if◌then◌else◌, IfOk, IfSome};
ghost use Rattle.std.specs.List.{join_with_byte};
ghost use Rattle.cpl_base.specs.Gives.{Gives};
ghost use Rattle.cpl_base.specs.Words.{texts};
ghost use Rattle.cpl_text.specs.Lines.{lines_of};
ghost use Rattle.cpl_text.specs.Spans.{IsLines, Stands, StandsIn, line_in, part_in};
ghost use Rattle.cpl_config.specs.Items.{items_of, line_fault, word_line};
ghost use Rattle.cpl_config.specs.Steps.{CanJoin, progress_by_opening, progress_inside, progress_of, progress_outside, table_so_far};

use crate::fault::ItemFault;
use crate::items::Items;
use crate::row::{Row, Table};
use crate::words::{is_stray, is_table_end, row, table_label, value_item};
use cpl_base::{Many, Memory, Text};
use cpl_text::{Line, Word};
use std::alloc::Global;

/// A table that is being read.
#[derive(Drop)]
pub(crate) struct OpenTable {
    label: Text,
    line: u32,
    rows: Vec<Row>,
}

/// Reads the lines of a text as the items of a resource file, in time linear in the text's length.
/// The lines are the answer of `lines` for these bytes, of which there are fewer than 2^32 - 1.
///
/// Outside of tables a line whose first word is `::` is `StrayClose`. A line of one word that ends in
/// `::`, with a byte before, opens the table of that label; with further words it is `BadLine`. Any
/// other line whose first word has a `:` and doesn't begin with it is a value item: its label stands
/// before the colon, and its values are what stands right behind it, if anything does, and the further
/// words. Other lines are `BadLine`. Inside a table the one word `::` closes it, and any other line is a
/// row. A value item and a table of one label are different; a label that stood before in its kind is
/// `LabelTwice`.
///
/// Errors: that of the first faulty line; `Unclosed`, with the line of its opening, where a table is
/// open at the end and no line is faulty.
///
/// Source: ESMF Reference Manual, Config class; the refusals are this project's own.
pub fn read_items(alloc: Global, bytes: &[u8], lines: &[Line]) -> Result<Items, ItemFault>
    requires size { length bytes.now < 2 ^ 32 - 1 }
    requires lines { IsLines bytes.now lines.now }
    ensures { Gives ItemFault.Memory (λ items. items) result (items_of (map word_line (lines_of bytes.now))) }
{
    let mut items = Items::new(alloc);
    let mut table = None;
    for line in lines {
        let words = line_texts(alloc, bytes, line)?;
        table = read_line(alloc, &mut items, table, line.number, words.as_slice())?;
    }
    match table {
        None => Ok(items),
        Some(table) => Err(ItemFault::Unclosed { line: table.line }),
    }
}

/// The words of a line of the text.
fn line_texts<'a>(alloc: Global, bytes: &'a [u8], line: &Line) -> Result<Vec<&'a [u8]>, Memory>
    requires { StandsIn bytes.now (line_in bytes.now line.now) }
    ensures { IfOk result (λ words. texts words.items ≡ (word_line (line_in bytes.entry.now line.now)).words) }
{
    let mut words = Vec::with_capacity(alloc, line.words.len())?;
    for word in &line.words {
        words.push(word_text(bytes, *word))?;
    }
    Ok(words)
}

/// What stands between the ends of a word.
fn word_text(bytes: &[u8], word: Word) -> &[u8]
    requires { Stands bytes.now (part_in bytes.now word) }
    ensures { result.now ≡ (part_in bytes.entry.now word).text }
{
    &bytes[word.start..word.end]
}

/// Reads a line; the answer is the table that is open behind it, if one is.
fn read_line(
    alloc: Global,
    items: &mut Items,
    table: Option<OpenTable>,
    number: u32,
    words: &[&[u8]],
) -> Result<Option<OpenTable>, ItemFault>
    requires short { length (join_with_byte 32 (texts words.now)) < 2 ^ 32 }
    requires joins { IfSome table (CanJoin items.old) }
    ensures gives { Gives ItemFault.Memory (λ after. (items.new, option_map table_so_far after)) result
        (progress_of items.old (option_map table_so_far table) (record { number = number; words = texts words.now })) }
    ensures joins { IfOk result (λ after. IfSome after (CanJoin items.new)) }
{
    match table {
        None => read_outside(alloc, items, number, words),
        Some(table) => Ok(read_inside(alloc, items, table, number, words)?),
    }
}

/// Reads a line outside of tables; the answer is the table that it opens, if it opens one.
fn read_outside(
    alloc: Global,
    items: &mut Items,
    number: u32,
    words: &[&[u8]],
) -> Result<Option<OpenTable>, ItemFault>
    requires { length (join_with_byte 32 (texts words.now)) < 2 ^ 32 }
    ensures gives { Gives ItemFault.Memory (λ table. (items.new, option_map table_so_far table)) result (progress_outside items.old (record { number = number; words = texts words.now })) }
    ensures joins { IfOk result (λ table. IfSome table (CanJoin items.new)) }
{
    if let Some(label) = table_label(words) {
        return open_table(alloc, items, number, label);
    }
    let Some(item) = value_item(words) else {
        return Err(line_fault(number, words));
    };
    if items.has_value(item.label) {
        return Err(ItemFault::LabelTwice { line: number });
    }
    let row = row(alloc, number, item.first, item.more)?;
    items.add_value(Text::of(alloc, item.label)?, row)?;
    Ok(None)
}

/// The table of a label that a line opens.
fn open_table(
    alloc: Global,
    items: &Items,
    number: u32,
    label: &[u8],
) -> Result<Option<OpenTable>, ItemFault>
    ensures gives { Gives ItemFault.Memory (λ table. (items.now, option_map table_so_far table)) result (progress_by_opening items.now label.now number) }
    ensures joins { IfOk result (λ table. IfSome table (CanJoin items.now)) }
{
    if items.has_table(label) {
        return Err(ItemFault::LabelTwice { line: number });
    }
    Ok(Some(OpenTable {
        label: Text::of(alloc, label)?,
        line: number,
        rows: Vec::new(alloc),
    }))
}

/// The fault of a line that is neither a value item nor the opening of a table.
fn line_fault(number: u32, words: &[&[u8]]) -> ItemFault
    ensures { result ≡ line_fault (record { number = number; words = texts words.now }) }
{
    if is_stray(words) {
        ItemFault::StrayClose { line: number }
    } else {
        ItemFault::BadLine { line: number }
    }
}

/// Reads a line of a table: a row, or its end. The answer is the table, if it is still open.
fn read_inside(
    alloc: Global,
    items: &mut Items,
    table: OpenTable,
    number: u32,
    words: &[&[u8]],
) -> Result<Option<OpenTable>, Memory>
    requires short { length (join_with_byte 32 (texts words.now)) < 2 ^ 32 }
    requires joins { CanJoin items.old table }
    ensures items { IfOk result (λ after. progress_inside items.old (table_so_far table) (record { number = number; words = texts words.now }) ≡ (items.new, option_map table_so_far after)) }
    ensures joins { IfOk result (λ after. IfSome after (CanJoin items.new)) }
{
    let mut table = table;
    if is_table_end(words) {
        let OpenTable { label, line, rows } = table;
        let rows = Many::of(rows);
        items.add_table(label, Table { line, rows })?;
        return Ok(None);
    }
    table.rows.push(row(alloc, number, b"", words)?)?;
    Ok(Some(table))
}
