//! A table of what each PET sends to each other: all cells in one list, and for each pair with cells where they stand in it.

ghost use Rattle.std.specs.Prelude.{◌≡◌, ℕ, ◌+◌, ◌≤◌, ◌<◌, ◌^◌, ◌++◌, ◌∷◌, [], Bool, List, length, slice_index_or, IfOk, if◌then◌else◌, nat_lt};
ghost use Rattle.cpl_grid.specs.Owners.{IsPet, Layout, pets_in};
ghost use Rattle.cpl_route.specs.Routes.{cells_sent, legs_from, route_of, shared_cells};
ghost use Rattle.cpl_route.specs.Tables.{HasLegs, IsTable};

use cpl_base::Memory;
use std::alloc::Global;

/// Where the cells of a pair stand in the list of all cells.
#[derive(Clone, Copy, Debug)]
pub(crate) struct Span {
    /// The PET that sends them.
    pub from: u8,
    /// The PET that gets them.
    pub to: u8,
    /// The place of the first.
    pub start: usize,
    /// The place behind the last.
    pub end: usize,
}

/// What PETs send each other, as the table asks for it: pair by pair.
pub(crate) trait Sharing {
    /// Who owns the cells.
    ghost src: { Self → Layout };

    /// Whether a PET needs a cell.
    ghost is_needed: { Self → ℕ → ℕ → Bool };

    /// The PETs that may need cells, ascending.
    ghost receivers: { Self → List ℕ };

    /// What the calls below rest on.
    ghost is_sound: { Self → Type 0 };

    /// The first PET that owns cells, and how many do.
    fn senders(&self) -> (u8, u8)
        requires { is_sound self.now }
        ensures first { result.0 ≡ (src self.now).first_pet }
        ensures count { result.1 ≡ pets_in (src self.now) }
        ensures within { result.0 + result.1 ≤ 64 };

    /// How many PETs may need cells.
    fn receiver_count(&self) -> usize
        requires { is_sound self.now }
        ensures { result ≡ length (receivers self.now) };

    /// The PET at a place among those that may need cells.
    fn receiver(&self, place: usize) -> u8
        requires sound { is_sound self.now }
        requires place { place < length (receivers self.now) }
        ensures { result ≡ slice_index_or (receivers self.now) place 0 };

    /// Appends the cells that a PET owns and the PET at a place needs.
    fn push(&self, from: u8, place: usize, out: &mut Vec<u32>) -> Result<(), Memory>
        requires sound { is_sound self.now }
        requires from { IsPet (src self.now) from }
        requires place { place < length (receivers self.now) }
        ensures { IfOk result (λ _. out.new.items ≡ out.old.items ++ shared_cells (src self.now) (is_needed self.now) from (slice_index_or (receivers self.now) place 0)) };

    /// How many these are.
    fn count(&self, from: u8, place: usize) -> u32
        requires sound { is_sound self.now }
        requires from { IsPet (src self.now) from }
        requires place { place < length (receivers self.now) }
        ensures value { result ≡ length (shared_cells (src self.now) (is_needed self.now) from (slice_index_or (receivers self.now) place 0)) }
        ensures few { result ≤ 2 ^ 20 };
}

/// The table: the spans of the pairs with cells, by sender and then by receiver, and the cells.
#[derive(Drop)]
pub(crate) struct Table {
    pub spans: Vec<Span>,
    pub cells: Vec<u32>,
}

/// The table of what PETs send each other, with room for so many cells from the start.
pub(crate) fn table_of<S: Sharing>(alloc: Global, sharing: &S, room: usize) -> Result<Table, Memory>
    requires { S.is_sound sharing.now }
    ensures { IfOk result (λ table. HasLegs [] [] (route_of (S.src sharing.now) (S.is_needed sharing.now) (S.receivers sharing.now)) table.spans.items table.cells.items) }
{
    let mut spans = Vec::new(alloc);
    let mut cells = Vec::with_capacity(alloc, room)?;
    let (first, count) = sharing.senders();
    for from in first..first + count {
        add_sender(sharing, from, &mut spans, &mut cells)?;
    }
    Ok(Table { spans, cells })
}

/// Adds what a PET sends to each other.
fn add_sender<S: Sharing>(
    sharing: &S,
    from: u8,
    spans: &mut Vec<Span>,
    cells: &mut Vec<u32>,
) -> Result<(), Memory>
    requires sound { S.is_sound sharing.now }
    requires from { IsPet (S.src sharing.now) from }
    requires table { IsTable spans.old.items cells.old.items }
    ensures { IfOk result (λ _. HasLegs spans.old.items cells.old.items (legs_from (S.src sharing.now) (S.is_needed sharing.now) (S.receivers sharing.now) from) spans.new.items cells.new.items) }
{
    for place in 0..sharing.receiver_count() {
        add_leg(sharing, from, place, spans, cells)?;
    }
    Ok(())
}

/// Adds what a PET sends to the PET at a place, where that is anything.
fn add_leg<S: Sharing>(
    sharing: &S,
    from: u8,
    place: usize,
    spans: &mut Vec<Span>,
    cells: &mut Vec<u32>,
) -> Result<(), Memory>
    requires sound { S.is_sound sharing.now }
    requires from { IsPet (S.src sharing.now) from }
    requires place { place < length (S.receivers sharing.now) }
    requires table { IsTable spans.old.items cells.old.items }
    ensures { IfOk result (λ _. HasLegs spans.old.items cells.old.items
        (legs_from (S.src sharing.now) (S.is_needed sharing.now) (slice_index_or (S.receivers sharing.now) place 0 ∷ []) from)
        spans.new.items cells.new.items) }
{
    let start = cells.len();
    sharing.push(from, place, cells)?;
    let span = Span {
        from,
        to: sharing.receiver(place),
        start,
        end: cells.len(),
    };
    note_span(span, spans)?;
    Ok(())
}

/// Notes a span that isn't empty.
fn note_span(span: Span, spans: &mut Vec<Span>) -> Result<(), Memory>
    ensures { IfOk result (λ _. spans.new.items ≡ spans.old.items ++ (if nat_lt span.start span.end then span ∷ [] else [])) }
{
    if span.start < span.end {
        spans.push(span)?;
    }
    Ok(())
}

/// How many cells PETs send each other, all together.
pub(crate) fn total_of<S: Sharing>(sharing: &S) -> u64
    requires sound { S.is_sound sharing.now }
    requires few { length (S.receivers sharing.now) ≤ 256 }
    ensures value { result ≡ cells_sent (route_of (S.src sharing.now) (S.is_needed sharing.now) (S.receivers sharing.now)) }
    ensures few { result ≤ 2 ^ 34 }
{
    let mut total = 0;
    let (first, count) = sharing.senders();
    for from in first..first + count {
        total += total_from(sharing, from);
    }
    total
}

/// How many cells a PET sends to all others.
fn total_from<S: Sharing>(sharing: &S, from: u8) -> u64
    requires sound { S.is_sound sharing.now }
    requires few { length (S.receivers sharing.now) ≤ 256 }
    requires from { IsPet (S.src sharing.now) from }
    ensures value { result ≡ cells_sent (legs_from (S.src sharing.now) (S.is_needed sharing.now) (S.receivers sharing.now) from) }
    ensures few { result ≤ 2 ^ 28 }
{
    let mut total = 0;
    for place in 0..sharing.receiver_count() {
        total += u64::from(sharing.count(from, place));
    }
    total
}
