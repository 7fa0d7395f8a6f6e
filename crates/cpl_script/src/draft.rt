//! Connectors before their routes are made: pairs and weights for each line of the run sequence.

ghost use Rattle.std.specs.Prelude.{◌≡◌, List, filter, length, map, Option, IfOk};
ghost use Rattle.std.specs.List.{zip};
ghost use Rattle.cpl_script.specs.Drafts.{draft_of};
ghost use Rattle.cpl_script.specs.Systems.{is_pair_of};

use cpl_base::{Many, Memory};
use cpl_match::Pair;
use cpl_sequence::LinkLine;
use cpl_smm::Weights;
use std::alloc::Global;

/// A connector without its route.
#[derive(Drop)]
pub(crate) struct Draft {
    /// Its line of the run sequence.
    pub line: LinkLine,
    /// Its pairs.
    pub pairs: Many<Pair>,
    /// The weights by which it carries, where that isn't a redistribution.
    pub weights: Option<Weights>,
}

/// The drafts of lines, each with its weights and its pairs among all pairs.
pub(crate) fn drafts_of(
    alloc: Global,
    lines: &[LinkLine],
    weights: Many<Option<Weights>>,
    pairs: &[Pair],
) -> Result<Vec<Draft>, Memory>
    requires { length weights ≡ length lines.now }
    ensures { IfOk result (λ drafts. drafts.items ≡ map (draft_of pairs.now) (zip lines.now weights)) }
{
    let mut drafts = Vec::with_capacity(alloc, lines.len())?;
    let mut place = 0;
    for given in weights.into_items() {
        let draft = draft_of(alloc, &lines[place], given, pairs)?;
        drafts.push(draft)?;
        place += 1;
    }
    Ok(drafts)
}

/// The draft of a line with its weights.
fn draft_of(
    alloc: Global,
    line: &LinkLine,
    weights: Option<Weights>,
    pairs: &[Pair],
) -> Result<Draft, Memory>
    ensures { IfOk result (λ draft. draft ≡ draft_of pairs.now (line.now, weights)) }
{
    let own = pairs_of(alloc, line, pairs)?;
    let line = copy_of(alloc, line)?;
    Ok(Draft {
        line,
        pairs: Many::of(own),
        weights,
    })
}

/// The pairs of a line.
fn pairs_of(alloc: Global, line: &LinkLine, pairs: &[Pair]) -> Result<Vec<Pair>, Memory>
    ensures { IfOk result (λ own. own.items ≡ filter (is_pair_of line.now) pairs.now) }
{
    let mut own = Vec::new(alloc);
    for pair in pairs {
        if is_pair_of(line, *pair) {
            own.push(*pair)?;
        }
    }
    Ok(own)
}

/// Whether a pair leads between the components of a line.
fn is_pair_of(line: &LinkLine, pair: Pair) -> bool
    ensures { result ≡ is_pair_of line.now pair }
{
    pair.src == line.src && pair.dst == line.dst
}

/// A copy of a line.
fn copy_of(alloc: Global, line: &LinkLine) -> Result<LinkLine, Memory>
    ensures { IfOk result (λ copy. copy ≡ line.now) }
{
    let file = line.file.copy(alloc)?;
    Ok(LinkLine {
        src: line.src,
        dst: line.dst,
        method: line.method,
        file,
        terms: line.terms,
        line: line.line,
    })
}
