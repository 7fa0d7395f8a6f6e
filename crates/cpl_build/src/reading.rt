//! What a text says of a system, step by step.

ghost use Rattle.std.specs.Prelude.{◌≡◌, ◌≤◌, ◌<◌, ◌^◌, ◌-◌, ◌+ℤ◌, ◌<ℤ◌, pos, length, map, codes, IfOk};
ghost use Rattle.std.specs.List.{All};
ghost use Rattle.cpl_base.specs.Gives.{Gives};
ghost use Rattle.cpl_build.specs.Outlines.{AreSettings, IsOutline, IsSequenced, inputs_of, items_in, order_in, outline_in, outline_of, pairs_in, sequence_in, settings_in};
ghost use Rattle.cpl_build.specs.Refusals.{head_refusal, item_refusal, refused_by, table_refusal};
ghost use Rattle.cpl_calendar.specs.Calendar.{end_of_time};
ghost use Rattle.cpl_head.specs.Alarms.{AreAlarms, alarms_of};
ghost use Rattle.cpl_head.specs.Dictionaries.{dictionary_of};
ghost use Rattle.cpl_head.specs.Head.{IsHead, head_of};
ghost use Rattle.cpl_head.specs.Tables.{rows_under};
ghost use Rattle.cpl_head.specs.Times.{room_after};
ghost use Rattle.cpl_init.specs.Waiting.{IsInitialOrder};
ghost use Rattle.cpl_match.specs.Pairs.{ArePairs};
ghost use Rattle.cpl_script.specs.Matched.{cell_counts, names_of, ports_of, way_of};
ghost use Rattle.cpl_script.specs.Operations.{needs_in};
ghost use Rattle.cpl_sequence.specs.Bounds.{IsOver};

use crate::fault::Rejection;
use crate::matched::{cell_counts, names_of, needs_in, ports_of, ways_of};
use crate::outline::Outline;
use crate::realising::components_in;
use crate::refusals::{
    head_refusal, item_refusal, match_refusal, not_ascii, sequence_refusal, table_refusal,
    waiting_refusal,
};
use crate::settings::Settings;
use cpl_base::Many;
use cpl_calendar::end_of;
use cpl_comp::Comp;
use cpl_config::{Items, Row, read_items};
use cpl_dict::Dict;
use cpl_formula::EntrySign;
use cpl_head::{AlarmTable, Head, read_alarms, read_dictionary, read_head};
use cpl_init::{InitFault, order};
use cpl_match::{Pair, connect};
use cpl_runseq::read_sequence;
use cpl_sequence::Seq;
use cpl_text::{TextFault, lines};
use std::alloc::Global;

/// What a text says of a system, with native entries of these labels and numbers of inputs.
#[tactic(auto, unfolding(crate::specs::Outlines::outline_of))]
pub(crate) fn outline_of(
    alloc: Global,
    signs: &[EntrySign],
    bytes: &[u8],
) -> Result<Outline, Rejection>
    requires size { length bytes.now < 2 ^ 32 - 1 }
    requires signs { length signs.now < 2 ^ 16 }
    ensures answer { Gives Rejection.Memory (λ outline. outline) result (outline_of signs.now bytes.now) }
    ensures outline { IfOk result (IsOutline (inputs_of signs.now)) }
{
    let items = items_in(alloc, bytes)?;
    let settings = settings_in(alloc, &items)?;
    outline_in(alloc, &items, settings, signs)
}

/// What items say of the run as a whole.
#[tactic(auto, unfolding(crate::specs::Outlines::settings_in))]
fn settings_in(alloc: Global, items: &Items) -> Result<Settings, Rejection>
    ensures answer { Gives Rejection.Memory (λ settings. settings) result (settings_in items.now) }
    ensures settings { IfOk result AreSettings }
{
    let head = head_in(alloc, items)?;
    let dict = dictionary_in(alloc, items)?;
    let alarms = alarms_in(alloc, items)?;
    Ok(Settings { head, dict, alarms })
}

/// What items say of a system with these settings.
#[tactic(auto, unfolding(crate::specs::Outlines::outline_in))]
fn outline_in(
    alloc: Global,
    items: &Items,
    settings: Settings,
    signs: &[EntrySign],
) -> Result<Outline, Rejection>
    requires settings { AreSettings settings }
    requires signs { length signs.now < 2 ^ 16 }
    ensures answer { Gives Rejection.Memory (λ outline. outline) result (outline_in items.now settings signs.now) }
    ensures outline { IfOk result (IsOutline (inputs_of signs.now)) }
{
    let Settings { head, dict, alarms } = settings;
    let names = head.components.items();
    let components = components_in(alloc, items, &dict, alarms.names.items(), signs, names)?;
    let comps = components.comps;
    let seq = sequence_in(alloc, items, &head, comps.items())?;
    let pairs = pairs_in(alloc, &dict, comps.items(), &seq)?;
    let init = order_in(alloc, comps.items(), pairs.items())?;
    Ok(Outline {
        comps,
        pets: components.pets,
        seq,
        pairs,
        init,
        cal: head.cal,
        start: head.start,
        alarms: alarms.alarms,
    })
}

// ---- items, and what they say of the run as a whole

/// The items of a text.
fn items_in(alloc: Global, bytes: &[u8]) -> Result<Items, Rejection>
    requires { length bytes.now < 2 ^ 32 - 1 }
    ensures { Gives Rejection.Memory (λ items. items) result (items_in bytes.now) }
{
    let lines = match lines(alloc, bytes) {
        Ok(lines) => lines,
        Err(TextFault::NotAscii { line }) => return Err(not_ascii(alloc, line)),
        Err(TextFault::Memory) => return Err(Rejection::Memory),
    };
    match read_items(alloc, bytes, lines.as_slice()) {
        Ok(items) => Ok(items),
        Err(fault) => Err(item_refusal(alloc, fault)),
    }
}

/// The head of items.
fn head_in(alloc: Global, items: &Items) -> Result<Head, Rejection>
    ensures answer { Gives Rejection.Memory (λ head. head) result (refused_by head_refusal (head_of items.now)) }
    ensures head { IfOk result IsHead }
{
    match read_head(alloc, items) {
        Ok(head) => Ok(head),
        Err(fault) => Err(head_refusal(alloc, fault)),
    }
}

/// The field dictionary of items.
fn dictionary_in(alloc: Global, items: &Items) -> Result<Dict, Rejection>
    ensures { Gives Rejection.Memory (λ dict. dict) result (refused_by table_refusal (dictionary_of items.now)) }
{
    match read_dictionary(alloc, items) {
        Ok(dict) => Ok(dict),
        Err(fault) => Err(table_refusal(alloc, fault)),
    }
}

/// The alarms of items.
fn alarms_in(alloc: Global, items: &Items) -> Result<AlarmTable, Rejection>
    ensures answer { Gives Rejection.Memory (λ table. table) result (refused_by table_refusal (alarms_of items.now)) }
    ensures alarms { IfOk result AreAlarms }
{
    match read_alarms(alloc, items) {
        Ok(table) => Ok(table),
        Err(fault) => Err(table_refusal(alloc, fault)),
    }
}

// ---- the run sequence, matching, and the order of initialisation

/// The rows of the run sequence, none where there is none.
fn sequence_rows(items: &Items) -> &[Row]
    ensures { result.now ≡ rows_under (codes "runSeq") items.entry.now }
{
    match items.table(b"runSeq") {
        Some(rows) => rows,
        None => &[],
    }
}

/// How long a run may last, in seconds: from its start to the end of its calendar.
fn room_after(head: &Head) -> i64
    requires { IsHead head.now }
    ensures { result ≡ room_after head.now.cal head.now.start }
{
    end_of(head.cal) - head.start
}

/// The run sequence over components.
fn sequence_in(alloc: Global, items: &Items, head: &Head, comps: &[Comp]) -> Result<Seq, Rejection>
    requires head { IsHead head.now }
    requires few { length comps.now ≤ 32 }
    requires comps { All IsSequenced comps.now }
    ensures answer { Gives Rejection.Memory (λ seq. seq) result (sequence_in items.now head.now comps.now) }
    ensures over { IfOk result (IsOver (names_of comps.now)) }
    ensures end { IfOk result (λ seq. (head.now.start +ℤ seq.span) <ℤ pos (end_of_time head.now.cal)) }
{
    let names = names_of(alloc, comps)?;
    let room = room_after(head);
    let rows = sequence_rows(items);
    match read_sequence(
        alloc,
        rows,
        names.as_slice(),
        head.span,
        head.time_step,
        room,
    ) {
        Ok(seq) => Ok(seq),
        Err(fault) => Err(sequence_refusal(alloc, fault)),
    }
}

/// Which exports feed which imports.
fn pairs_in(alloc: Global, dict: &Dict, comps: &[Comp], seq: &Seq) -> Result<Many<Pair>, Rejection>
    requires few { length comps.now ≤ 32 }
    requires fields { All (λ comp. length comp.fields ≤ 64) comps.now }
    ensures answer { Gives Rejection.Memory (λ pairs. pairs) result (pairs_in dict.now comps.now seq.now) }
    ensures pairs { IfOk result (ArePairs dict.now (cell_counts comps.now) (map way_of seq.now.links) (ports_of comps.now)) }
{
    let ports = ports_of(alloc, comps)?;
    let cells = cell_counts(alloc, comps)?;
    let ways = ways_of(alloc, seq.links())?;
    match connect(
        alloc,
        ports.as_slice(),
        cells.as_slice(),
        dict,
        ways.as_slice(),
    ) {
        Ok(pairs) => Ok(pairs),
        Err(fault) => Err(match_refusal(alloc, comps, fault)),
    }
}

/// The order in which components are initialised.
fn order_in(alloc: Global, comps: &[Comp], pairs: &[Pair]) -> Result<Many<u8>, Rejection>
    requires few { length comps.now ≤ 32 }
    requires ends { All (λ pair. (pair.src < length comps.now) × (pair.dst < length comps.now)) pairs.now }
    ensures answer { Gives Rejection.Memory (λ init. init) result (order_in comps.now pairs.now) }
    ensures order { IfOk result (IsInitialOrder (length comps.now) (needs_in comps.now pairs.now)) }
{
    let needs = needs_in(alloc, comps, pairs)?;
    match order(alloc, comps.len() as u8, needs.as_slice()) {
        Ok(order) => Ok(Many::of(order.numbers().to_vec(alloc)?)),
        Err(InitFault::Waiting { components }) => {
            Err(waiting_refusal(alloc, comps, components.numbers()))
        }
        Err(InitFault::Memory) => Err(Rejection::Memory),
    }
}
