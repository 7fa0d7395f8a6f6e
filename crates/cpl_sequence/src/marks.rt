//! What is kept of a tree so that an operation is found by its number: counts of operations, capped at the
//! greatest `u64`.

ghost use Rattle.std.specs.Prelude.{◌≡◌, ◌+◌, [], ◌∷◌, ◌++◌, min, IfOk, IsTrue, OnOk};
ghost use Rattle.std.specs.List.{list_all};
ghost use Rattle.cpl_sequence.specs.Marks.{body_marks, greatest_count, mark_of, marks_of_tops, tally_of, tally_of_top};
ghost use Rattle.cpl_sequence.specs.Sound.{is_timed, is_timed_top};

use crate::element::{Element, TopLoop};
use cpl_base::Memory;
use sqlite_items::Items;
use std::alloc::Global;

/// What is kept of an element of a body, or of a loop that stands in no other.
#[derive(Drop)]
pub(crate) struct Mark {
    /// How many operations stand before it in one iteration of its body, or in the sequence.
    pub before: u64,
    /// How many operations one iteration of it has, where it is a loop.
    pub round: u64,
    /// The marks of what stands in it.
    pub body: Items<Mark>,
}

/// The marks of elements, and how many operations these have together.
#[derive(Drop)]
pub(crate) struct Marks {
    /// How many operations they have in one iteration.
    pub count: u64,
    /// A mark for each.
    pub marks: Items<Mark>,
}

/// How many operations an element has in one iteration, and what is kept of its body.
#[derive(Drop)]
pub(crate) struct Tally {
    /// How many operations it has.
    pub count: u64,
    /// How many one iteration of it has, where it is a loop.
    pub round: u64,
    /// The marks of what stands in it.
    pub body: Items<Mark>,
}

/// The marks of loops that stand in no other, and how many operations they have together.
pub(crate) fn marks_of_tops(alloc: Global, tops: &[TopLoop]) -> Result<Marks, Memory>
    requires { IsTrue (list_all is_timed_top tops.now) }
    ensures { IfOk result (λ kept. kept ≡ marks_of_tops tops.now) }
{
    let mut marks = Items::new(alloc);
    let mut count: u64 = 0;
    for top in tops {
        let tally = tally_of_top(alloc, top)?;
        count = add_mark(&mut marks, count, tally)?;
    }
    Ok(Marks { count, marks })
}

/// A mark more, before which so many operations stand; how many stand behind it.
fn add_mark(marks: &mut Items<Mark>, before: u64, tally: Tally) -> Result<u64, Memory>
    ensures mark { OnOk result (marks.new ≡ marks.old ++ mark_of before tally.round tally.body ∷ []) }
    ensures count { IfOk result (λ behind. behind ≡ min (before + tally.count) greatest_count) }
{
    marks.push(Mark {
        before,
        round: tally.round,
        body: tally.body,
    })?;
    Ok(before.saturating_add(tally.count))
}

/// What is kept of a loop that stands in no other.
fn tally_of_top(alloc: Global, top: &TopLoop) -> Result<Tally, Memory>
    requires { IsTrue (is_timed_top top.now) }
    ensures { IfOk result (λ tally. tally ≡ tally_of_top top.now) }
{
    let Marks { count, marks } = body_marks(alloc, top.body.as_slice(), top.step)?;
    Ok(Tally {
        count: (top.duration / top.step).saturating_mul(count),
        round: count,
        body: marks,
    })
}

/// What is kept of the elements of a body, in a loop of this step.
#[cycle(marking)]
fn body_marks(alloc: Global, body: &[Element], step: u64) -> Result<Marks, Memory>
    requires { IsTrue (list_all (λ element. is_timed element step) body.now) }
    ensures { IfOk result (λ kept. kept ≡ body_marks body.now step) }
{
    let mut marks = Items::new(alloc);
    let mut count: u64 = 0;
    for element in body {
        let tally = tally_of(alloc, element, step)?;
        count = add_mark(&mut marks, count, tally)?;
    }
    Ok(Marks { count, marks })
}

/// What is kept of an element, in a loop of this step.
#[cycle(marking)]
fn tally_of(alloc: Global, element: &Element, step: u64) -> Result<Tally, Memory>
    requires { IsTrue (is_timed element.now step) }
    ensures { IfOk result (λ tally. tally ≡ tally_of element.now step) }
{
    match element {
        Element::Link { .. } => Ok(Tally {
            count: 1,
            round: 0,
            body: Items::new(alloc),
        }),
        Element::Run { substep, .. } => Ok(Tally {
            count: match substep {
                Some(substep) => step / *substep,
                None => 1,
            },
            round: 0,
            body: Items::new(alloc),
        }),
        Element::Loop {
            step: inner,
            duration,
            body,
        } => {
            let Marks { count, marks } = body_marks(alloc, body.as_slice(), *inner)?;
            Ok(Tally {
                count: (*duration / *inner).saturating_mul(count),
                round: count,
                body: marks,
            })
        }
    }
}
