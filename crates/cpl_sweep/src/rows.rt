//! How much room a sweep works in.

ghost use Rattle.std.specs.Prelude.{◌≡◌, ◌+◌, ◌-◌, ◌^◌, min, max, if◌then◌else◌};
ghost use Rattle.cpl_sweep.specs.Rows.{rows_of, scratch_rows};

use cpl_formula::Formula;

/// How many strips a formula is worked out in, beside the one that it is swept into: each takes `STRIP` numbers of
/// scratch room. The greatest number stands for all that are as great or greater. Takes no memory.
///
/// Source: this project's own.
pub fn scratch_rows(tree: &Formula) -> usize
    ensures { result ≡ min (scratch_rows tree.now) (2 ^ 64 - 1) }
{
    match tree {
        Formula::Number(_) | Formula::Input(_) => 0,
        Formula::Minus(a) | Formula::Abs(a) => scratch_rows(a.get()),
        Formula::Plus(a, b)
        | Formula::Less(a, b)
        | Formula::Times(a, b)
        | Formula::Over(a, b)
        | Formula::Min(a, b)
        | Formula::Max(a, b) => rows_of_two(
            scratch_rows(a.get()),
            has_own_row(b.get()),
            scratch_rows(b.get()),
        ),
        Formula::Select(condition, a, b) => rows_of_choice(
            scratch_rows(condition.get()),
            scratch_rows(a.get()),
            scratch_rows(b.get()),
        ),
    }
}

/// Whether a part takes a strip of its own on the right of an operator: numbers and inputs don't.
fn has_own_row(tree: &Formula) -> bool
    ensures { (if result then 1 else 0) ≡ (rows_of tree.now).own }
{
    !matches!(tree, Formula::Number(_) | Formula::Input(_))
}

/// The strips of two parts.
fn rows_of_two(a: usize, own: bool, b: usize) -> usize
    ensures { result ≡ max a (min ((if own then 1 else 0) + b) (2 ^ 64 - 1)) }
{
    a.max(b.saturating_add(usize::from(own)))
}

/// The strips of a choice between two parts.
fn rows_of_choice(condition: usize, a: usize, b: usize) -> usize
    ensures { result ≡ max condition (max (min (1 + a) (2 ^ 64 - 1)) (min (2 + b) (2 ^ 64 - 1))) }
{
    condition.max(a.saturating_add(1)).max(b.saturating_add(2))
}
