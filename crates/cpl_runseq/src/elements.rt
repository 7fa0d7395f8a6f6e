//! Links and runs that stand in the innermost loop.

ghost use Rattle.std.specs.Prelude.{◌≡◌, ◌<◌, ◌≤◌, [], None, length, Ok, IfErr, IfOk, IfSome, OnOk, option_copied, option_map, position};
ghost use Rattle.std.specs.Str.{bytes_eq};
ghost use Rattle.cpl_base.specs.Words.{texts};
ghost use Rattle.cpl_runseq.specs.Asked.{AreFew, HasFewPhases};
ghost use Rattle.cpl_runseq.specs.Causes.{IsCaused};
ghost use Rattle.cpl_runseq.specs.Links.{link_at};
ghost use Rattle.cpl_runseq.specs.Names.{component_of, phase_of, substep_of};
ghost use Rattle.cpl_runseq.specs.Reading.{after_link, after_run, agrees, connection, fits_step, link_in, run_in};
ghost use Rattle.cpl_runseq.specs.Views.{reading_view, transfer_view};

use crate::fault::SeqFault;
use crate::links::Links;
use crate::loops::divides;
use crate::options::transfer_of;
use crate::state::State;
use crate::transfer::TransferWords;
use cpl_base::{Text, place_of};
use cpl_sequence::{Element, LinkLine, SeqName};
use std::alloc::Global;

/// A phase runs in the innermost loop.
pub(crate) fn add_run(
    state: &mut State,
    names: &[SeqName],
    line: u32,
    component: &[u8],
    phase: Option<&[u8]>,
) -> Result<(), SeqFault>
    requires { AreFew names.now }
    ensures ok { OnOk result (after_run (reading_view state.old) names.now line component.now (option_map (λ p. p.now) phase.entry) state.old.open ≡ Ok (reading_view state.new)) }
    ensures fault { IfErr result (IsCaused (after_run (reading_view state.old) names.now line component.now (option_map (λ p. p.now) phase.entry) state.old.open)) }
{
    let Some(mut inner) = state.open.pop() else {
        return Err(SeqFault::OutsideLoop { line });
    };
    let element = run_in(inner.step, names, line, component, phase)?;
    inner.body.push(element)?;
    state.open.push(inner)?;
    Ok(())
}

/// A run of a phase, in a loop of that step.
fn run_in(
    step: u64,
    names: &[SeqName],
    line: u32,
    component: &[u8],
    phase: Option<&[u8]>,
) -> Result<Element, SeqFault>
    requires { AreFew names.now }
    ensures { result ≡ run_in step names.now line component.now (option_map (λ p. p.now) phase.entry) }
{
    let (component, name) = component_of(names, component).ok_or(SeqFault::ComponentUnknown {
        line,
    })?;
    let phase = phase_of(name, phase).ok_or(SeqFault::PhaseUnknown { line })?;
    let substep = substep_of(name);
    if !fits_step(substep, step) {
        return Err(SeqFault::SubstepUneven { line });
    }
    Ok(Element::Run {
        component,
        phase,
        substep,
    })
}

/// The component of a name, with its place.
fn component_of<'a>(names: &'a [SeqName], word: &[u8]) -> Option<(u8, &'a SeqName)>
    requires { length names.now ≤ 32 }
    ensures value { option_map (λ c. (c.0, c.1.now)) result ≡ component_of names.entry.now word.now }
    ensures below { IfSome result (λ c. c.0 < 32) }
{
    let place = name_place(names, word)?;
    let name = names.get(place)?;
    Some((place as u8, name))
}

/// The place of a component among the names.
fn name_place(names: &[SeqName], word: &[u8]) -> Option<usize>
    ensures value { result ≡ position (λ name. bytes_eq name.name word.now) names.now }
    ensures below { IfSome result (λ place. place < length names.now) }
{
    names.iter().position(|name| name.name.bytes() == word)
}

/// The place of a phase among a component's; the first, where none is named.
fn phase_of(name: &SeqName, phase: Option<&[u8]>) -> Option<u8>
    requires { HasFewPhases name.now }
    ensures { result ≡ phase_of name.now (option_map (λ p. p.now) phase.entry) }
{
    let Some(word) = phase else {
        return Some(0);
    };
    match place_of(word, name.phases.items()) {
        None => None,
        Some(place) => Some(place as u8),
    }
}

/// A component's substep.
fn substep_of(name: &SeqName) -> Option<u64>
    ensures { result ≡ substep_of name.now }
{
    match name.substep {
        None => None,
        Some(substep) => Some(substep.unsigned_abs()),
    }
}

/// Whether a substep divides a step, where there is one.
fn fits_step(substep: Option<u64>, step: u64) -> bool
    ensures { result ≡ fits_step substep step }
{
    match substep {
        None => true,
        Some(substep) => divides(substep, step),
    }
}

/// A connector runs in the innermost loop.
pub(crate) fn add_link(
    alloc: Global,
    state: &mut State,
    names: &[SeqName],
    line: u32,
    src: &[u8],
    dst: &[u8],
    options: &[&[u8]],
) -> Result<(), SeqFault>
    requires { length names.now ≤ 32 }
    ensures ok { OnOk result (after_link (reading_view state.old) names.now line src.now dst.now (texts options.now) state.old.open ≡ Ok (reading_view state.new)) }
    ensures fault { IfErr result (IsCaused (after_link (reading_view state.old) names.now line src.now dst.now (texts options.now) state.old.open)) }
{
    let Some(mut inner) = state.open.pop() else {
        return Err(SeqFault::OutsideLoop { line });
    };
    let link = link_in(alloc, &mut state.links, names, line, src, dst, options)?;
    inner.body.push(Element::Link { link })?;
    state.open.push(inner)?;
    Ok(())
}

/// The connector that a row names.
fn link_in(
    alloc: Global,
    links: &mut Links,
    names: &[SeqName],
    line: u32,
    src: &[u8],
    dst: &[u8],
    options: &[&[u8]],
) -> Result<u16, SeqFault>
    requires { length names.now ≤ 32 }
    ensures ok { IfOk result (λ place. link_in links.old names.now line src.now dst.now (texts options.now) ≡ Ok (place, links.new)) }
    ensures fault { IfErr result (IsCaused (link_in links.old names.now line src.now dst.now (texts options.now))) }
{
    let (src, _) = component_of(names, src).ok_or(SeqFault::ComponentUnknown { line })?;
    let (dst, _) = component_of(names, dst).ok_or(SeqFault::ComponentUnknown { line })?;
    if src == dst {
        return Err(SeqFault::SelfLink { line });
    }
    let t = transfer_of(line, options)?;
    connection(alloc, links, line, src, dst, options, t)
}

/// Which connector a pair of components is.
fn connection(
    alloc: Global,
    links: &mut Links,
    line: u32,
    src: u8,
    dst: u8,
    options: &[&[u8]],
    t: TransferWords<'_>,
) -> Result<u16, SeqFault>
    requires source { src < 32 }
    requires destination { dst < 32 }
    ensures ok { IfOk result (λ place. connection links.old line src dst (texts options.now) (transfer_view t.entry) (link_at src dst links.old) ≡ Ok (place, links.new)) }
    ensures fault { IfErr result (IsCaused (connection links.old line src dst (texts options.now) (transfer_view t.entry) (link_at src dst links.old))) }
{
    let Some(place) = links.place(src, dst) else {
        return new_link(alloc, links, line, src, dst, t);
    };
    if !agrees(options, t, links.get(place)) {
        return Err(SeqFault::OptionsDiffer { line });
    }
    Ok(place)
}

/// A connector that no line named before.
fn new_link(
    alloc: Global,
    links: &mut Links,
    line: u32,
    src: u8,
    dst: u8,
    t: TransferWords<'_>,
) -> Result<u16, SeqFault>
    requires source { src < 32 }
    requires destination { dst < 32 }
    requires fresh { link_at src dst links.old ≡ None }
    ensures ok { IfOk result (λ place. connection links.old line src dst [] (transfer_view t.entry) None ≡ Ok (place, links.new)) }
    ensures memory { IfErr result (λ fault. fault ≡ SeqFault.Memory) }
{
    let place = links.add(LinkLine {
        src,
        dst,
        method: t.method,
        file: Text::of(alloc, t.file)?,
        terms: t.terms,
        line,
    })?;
    Ok(place)
}

/// Whether a later line of a connector agrees with the first.
fn agrees(options: &[&[u8]], t: TransferWords<'_>, first: Option<&LinkLine>) -> bool
    ensures { result ≡ agrees (texts options.now) (transfer_view t.entry) (option_copied first.entry) }
{
    if options.is_empty() {
        return true;
    }
    match first {
        None => false,
        Some(first) => {
            first.method == t.method && first.file.bytes() == t.file && first.terms == t.terms
        }
    }
}
