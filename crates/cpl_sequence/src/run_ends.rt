//! What the runs of a sequence count as they end, by its tree: no operation is walked.

ghost use Rattle.std.specs.Prelude.{◌≡◌, ◌<◌, IsTrue, min, slice_index_or};
ghost use Rattle.std.specs.List.{list_all};
ghost use Rattle.cpl_sequence.specs.Operations.{operations_of};
ghost use Rattle.cpl_sequence.specs.Marks.{greatest_count};
ghost use Rattle.cpl_sequence.specs.RunEnds.{body_ends, element_ends, end_total, loop_ends, top_ends};
ghost use Rattle.cpl_sequence.specs.Sound.{is_timed, is_timed_top};

use crate::element::{Element, TopLoop};
use crate::seq::Seq;
use sqlite_items::at;

/// The sum over all runs of a sequence, each once, of the number of its component in `counts`, capped at the greatest
/// `u64`. A component without a number counts 0; so `counts` with a 1 for one component alone gives how often it
/// runs. Takes no memory, and time in the number of the sequence's elements.
///
/// Source: this project's own.
pub fn run_total(seq: &Seq, counts: &[u64]) -> u64
    ensures { result ≡ min (end_total counts.now (operations_of seq.now)) greatest_count }
{
    let mut total: u64 = 0;
    for top in seq.loops() {
        total = total.saturating_add(top_ends(top, counts));
    }
    total
}

/// What a loop counts that stands in no other.
fn top_ends(top: &TopLoop, counts: &[u64]) -> u64
    requires { IsTrue (is_timed_top top.now) }
    ensures { result ≡ top_ends counts.now top.now }
{
    let count = body_ends(top.body.as_slice(), top.step, counts);
    loop_ends(top.step, top.duration, count)
}

/// What a loop counts, by what one iteration of it does.
fn loop_ends(step: u64, duration: u64, count: u64) -> u64
    requires { 0 < step }
    ensures { result ≡ loop_ends step duration count }
{
    (duration / step).saturating_mul(count)
}

/// What the elements of a body count in one iteration, in a loop of this step.
#[cycle(ending)]
fn body_ends(body: &[Element], step: u64, counts: &[u64]) -> u64
    requires { IsTrue (list_all (λ element. is_timed element step) body.now) }
    ensures { result ≡ body_ends counts.now body.now }
{
    let mut total: u64 = 0;
    for element in body {
        total = total.saturating_add(element_ends(element, step, counts));
    }
    total
}

/// What an element counts in one iteration, in a loop of this step.
#[cycle(ending)]
fn element_ends(element: &Element, step: u64, counts: &[u64]) -> u64
    requires { IsTrue (is_timed element.now step) }
    ensures { result ≡ element_ends counts.now element.now }
{
    match element {
        Element::Link { .. } => 0,
        Element::Run { component, .. } => count_of(counts, *component),
        Element::Loop {
            step: inner,
            duration,
            body,
        } => {
            let count = body_ends(body.as_slice(), *inner, counts);
            loop_ends(*inner, *duration, count)
        }
    }
}

/// The number of a component, 0 where it has none.
fn count_of(counts: &[u64], component: u8) -> u64
    ensures { result ≡ slice_index_or counts.now component 0 }
{
    match at(counts, usize::from(component)) {
        Some(count) => *count,
        None => 0,
    }
}
