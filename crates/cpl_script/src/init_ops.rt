//! The operations of an initialisation.

ghost use Rattle.std.specs.Prelude.{◌≡◌, ◌≤◌, ◌^◌, List, ◌++◌, length, map, true, IfOk, OnOk};
ghost use Rattle.std.specs.List.{list_any};
ghost use Rattle.cpl_script.specs.Drafts.{link_from, links_from};
ghost use Rattle.cpl_script.specs.Operations.{comp_init_ops, init_ops, is_init_pair, is_needed_link, needed_links, needed_links_from};

use crate::draft::Draft;
use cpl_base::Memory;
use cpl_comp::Comp;
use cpl_match::Pair;
use cpl_sequence::Op;
use std::alloc::Global;

/// The operations of the initialisation in this order.
pub(crate) fn init_ops(
    alloc: Global,
    comps: &[Comp],
    drafts: &[Draft],
    order: &[u8],
) -> Result<Vec<Op>, Memory>
    requires { length drafts.now ≤ 2 ^ 16 }
    ensures { IfOk result (λ ops. ops.items ≡ init_ops comps.now (links_from comps.now drafts.now) order.now) }
{
    let mut ops = Vec::new(alloc);
    for component in order {
        push_comp_ops(comps, drafts, *component, &mut ops)?;
    }
    Ok(ops)
}

/// Puts the operations of a component behind others: the connectors that it needs, then its own initialisation.
fn push_comp_ops(
    comps: &[Comp],
    drafts: &[Draft],
    component: u8,
    ops: &mut Vec<Op>,
) -> Result<(), Memory>
    requires { length drafts.now ≤ 2 ^ 16 }
    ensures { OnOk result (ops.new.items ≡ ops.old.items ++ comp_init_ops comps.now (links_from comps.now drafts.now) component) }
{
    push_needed(comps, drafts, component, ops)?;
    ops.push(Op::Init { component })?;
    Ok(())
}

/// Puts the connectors that a component needs behind others, by their producers in list order.
fn push_needed(
    comps: &[Comp],
    drafts: &[Draft],
    component: u8,
    ops: &mut Vec<Op>,
) -> Result<(), Memory>
    requires { length drafts.now ≤ 2 ^ 16 }
    ensures { OnOk result (ops.new.items ≡ ops.old.items ++ map (λ n. Op.Link n true) (needed_links comps.now (links_from comps.now drafts.now) component)) }
{
    for producer in 0..comps.len() {
        push_needed_from(comps, drafts, component, producer, ops)?;
    }
    Ok(())
}

/// Puts the connectors that a component needs from a producer behind others.
fn push_needed_from(
    comps: &[Comp],
    drafts: &[Draft],
    component: u8,
    producer: usize,
    ops: &mut Vec<Op>,
) -> Result<(), Memory>
    requires { length drafts.now ≤ 2 ^ 16 }
    ensures { OnOk result (ops.new.items ≡ ops.old.items ++ map (λ n. Op.Link n true) (needed_links_from comps.now (links_from comps.now drafts.now) component producer)) }
{
    for place in 0..drafts.len() {
        let draft = &drafts[place];
        if is_needed(comps, component, producer, draft) {
            ops.push(Op::Link {
                link: place as u16,
                at_init: true,
            })?;
        }
    }
    Ok(())
}

/// Whether a connector leads from a producer to a component that needs it.
fn is_needed(comps: &[Comp], component: u8, producer: usize, draft: &Draft) -> bool
    ensures { result ≡ is_needed_link comps.now component producer (link_from comps.now draft.now) }
{
    usize::from(draft.line.src) == producer
        && draft.line.dst == component
        && has_init_pair(comps, draft.pairs.items())
}

/// Whether some pair feeds an import that is taken before its component is initialised.
fn has_init_pair(comps: &[Comp], pairs: &[Pair]) -> bool
    ensures { result ≡ list_any (is_init_pair comps.now) pairs.now }
{
    for pair in pairs {
        if is_init_pair(comps, *pair) {
            return true;
        }
    }
    false
}

/// Whether a pair feeds an import that is taken before its component is initialised.
fn is_init_pair(comps: &[Comp], pair: Pair) -> bool
    ensures { result ≡ is_init_pair comps.now pair }
{
    let Some(comp) = comps.get(usize::from(pair.dst)) else {
        return false;
    };
    let fields = comp.fields.items();
    let Some(field) = fields.get(usize::from(pair.dst_field)) else {
        return false;
    };
    field.at_init
}
