//! The pairs of all imports.

ghost use Rattle.std.specs.Prelude.{◌≡◌, ◌<◌, ◌≤◌, ◌+◌, ℕ, List, [], ◌∷◌, All, length, slice_get, IfOk, Some};
ghost use Rattle.cpl_base.specs.Gives.{Gives};
ghost use Rattle.cpl_match.specs.Matching.{best_fit, best_ports, is_uneven, matched_pairs, pair_of};
ghost use Rattle.cpl_match.specs.Marks.{IsMarked};
ghost use Rattle.cpl_match.specs.Pairs.{ArePairs};
ghost use Rattle.cpl_match.specs.Scopes.{AreNumbered, IsSought};
ghost use Rattle.cpl_match.specs.declared.fault.MatchFault.{MatchFault};
ghost use Rattle.cpl_match.specs.declared.port.Way.{Way};

use crate::fault::MatchFault;
use crate::fits::{Scope, Sought, best_fit, fit};
use crate::marks::{Marks, numbers_of};
use crate::port::{Pair, Port, Way};
use crate::way_table::WayTable;
use cpl_base::Many;
use cpl_dict::Dict;
use std::alloc::Global;

/// The pairs of all imports: for each the export that fits it best, where exports are those of components with a
/// way to the import's, and fit by how well the dictionary matches the standard names.
///
/// `cells` gives the number of cells of each component; a port's component is below its length. Of ways between
/// the same two components the first counts. Pairs come in the order of the imports among the ports; an optional
/// import that no export fits has none.
///
/// Errors, at the first import that has one: `Ambiguous` exactly where two or more exports fit it best, with the
/// first two in the order of the ports; `Unmatched` exactly where none fits it and it isn't optional;
/// `SizeDiffers` exactly where one fits it best and the way redistributes between unequal numbers of cells; or
/// `Memory`.
///
/// Time is in the imports times the ports, and for each 64 ports among which an import stands, in the names of
/// the dictionary and of its synonym calls. All memory but that of the pairs is taken once, for all imports.
///
/// Source: NUOPC Layer Reference, Connector (fields are matched by standard name); how well names match, and what
/// is refused, are this project's own.
pub fn connect(
    alloc: Global,
    ports: &[Port],
    cells: &[u32],
    dict: &Dict,
    ways: &[Way],
) -> Result<Many<Pair>, MatchFault>
    requires { All (λ port. port.component < length cells.now) ports.now }
    ensures answer { Gives MatchFault.Memory (λ pairs. pairs) result (matched_pairs dict.now cells.now ways.now ports.now) }
    ensures pairs { IfOk result (ArePairs dict.now cells.now ways.now ports.now) }
{
    let numbers = numbers_of(alloc, dict, ports)?;
    let table = WayTable::new(alloc, ways)?;
    let scope = Scope {
        ports,
        numbers: numbers.as_slice(),
        cells,
        dict,
        ways: &table,
    };
    let pairs = pairs_in(alloc, scope)?;
    Ok(pairs)
}

/// The pairs of all imports.
fn pairs_in(alloc: Global, scope: Scope<'_>) -> Result<Many<Pair>, MatchFault>
    requires numbered { AreNumbered scope.dict.now scope.ports.now scope.numbers.now }
    requires cells { All (λ port. port.component < length scope.cells.now) scope.ports.now }
    ensures { Gives MatchFault.Memory (λ pairs. pairs) result (matched_pairs scope.entry.dict.now scope.entry.cells.now scope.entry.ways.now scope.entry.ports.now) }
{
    let mut marks = Marks::new(alloc, scope.dict, scope.numbers)?;
    let mut pairs = Vec::new(alloc);
    for place in 0..scope.ports.len() {
        let port = &scope.ports[place];
        if port.import {
            marks.turn_to(scope.dict, scope.numbers, place);
            if let Some(pair) = pair_at(scope, &marks, place, port)? {
                pairs.push(pair)?;
            }
        }
    }
    Ok(Many::of(pairs))
}

/// The pair of the import at a place, for which there are marks.
fn pair_at(
    scope: Scope<'_>,
    marks: &Marks,
    place: usize,
    port: &Port,
) -> Result<Option<Pair>, MatchFault>
    requires numbered { AreNumbered scope.dict.now scope.ports.now scope.numbers.now }
    requires cells { All (λ port. port.component < length scope.cells.now) scope.ports.now }
    requires marked { IsMarked scope.dict.now scope.numbers.now marks.now }
    requires from { marks.now.first ≤ place }
    requires to { place < marks.now.first + 64 }
    requires port { slice_get scope.ports.now place ≡ Some port.now }
    ensures { result ≡ pair_of scope.entry.cells.now scope.entry.ways.now port.now (best_ports scope.entry.dict.now scope.entry.ways.now scope.entry.ports.now port.now) }
{
    let import = Sought {
        port,
        number: scope.numbers[place],
        shared: marks.shared.as_slice(),
        bit: place - marks.first,
    };
    pair(scope, import, best_fit(scope, import))
}

/// The pair of an import, by how well those ports fit it that fit it best.
fn pair(scope: Scope<'_>, import: Sought<'_>, best: u8) -> Result<Option<Pair>, MatchFault>
    requires numbered { AreNumbered scope.dict.now scope.ports.now scope.numbers.now }
    requires cells { All (λ port. port.component < length scope.cells.now) scope.ports.now }
    requires sought { IsSought scope.dict.now import }
    requires own { import.port.now.component < length scope.cells.now }
    requires best { best ≡ best_fit scope.dict.now scope.ways.now scope.ports.now import.port.now }
    ensures { result ≡ pair_of scope.entry.cells.now scope.entry.ways.now import.entry.port.now (best_ports scope.entry.dict.now scope.entry.ways.now scope.entry.ports.now import.entry.port.now) }
{
    let mut found: Option<&Port> = None;
    for place in 0..scope.ports.len() {
        let port = &scope.ports[place];
        let fits = fit(scope, import, port, scope.numbers[place]);
        if fits > 0 && fits == best {
            match found {
                None => found = Some(port),
                Some(first) => return Err(ambiguous(import.port, first, port)),
            }
        }
    }
    match found {
        None => none_found(import.port),
        Some(port) => one_found(scope, import.port, port),
    }
}

/// Why an import has no pair that two ports fit best.
fn ambiguous(import: &Port, first: &Port, second: &Port) -> MatchFault
    ensures { result ≡ MatchFault.Ambiguous import.now.component import.now.field (first.now.component, first.now.field) (second.now.component, second.now.field) }
{
    MatchFault::Ambiguous {
        dst: import.component,
        field: import.field,
        first: (first.component, first.field),
        second: (second.component, second.field),
    }
}

/// What becomes of an import that no port fits.
fn none_found(import: &Port) -> Result<Option<Pair>, MatchFault>
    ensures { (cells : List ℕ) (ways : List Way) → result ≡ pair_of cells ways import.now [] }
{
    if import.optional {
        Ok(None)
    } else {
        Err(MatchFault::Unmatched {
            dst: import.component,
            field: import.field,
        })
    }
}

/// The pair of an import and the one port that fits it best.
fn one_found(scope: Scope<'_>, import: &Port, port: &Port) -> Result<Option<Pair>, MatchFault>
    requires src { port.now.component < length scope.cells.now }
    requires dst { import.now.component < length scope.cells.now }
    ensures { result ≡ pair_of scope.entry.cells.now scope.entry.ways.now import.now (port.now ∷ []) }
{
    let way = scope.ways.way(port.component, import.component);
    let count = scope.cells[port.component as usize];
    let other = scope.cells[import.component as usize];
    if is_uneven(way, count, other) {
        return Err(MatchFault::SizeDiffers {
            src: port.component,
            dst: import.component,
        });
    }
    Ok(Some(Pair {
        src: port.component,
        src_field: port.field,
        dst: import.component,
        dst_field: import.field,
    }))
}

/// Whether a way redistributes values between unequal numbers of cells.
fn is_uneven(way: Option<Way>, count: u32, other: u32) -> bool
    ensures { result ≡ is_uneven way count other }
{
    match way {
        None => false,
        Some(way) => way.redist && count != other,
    }
}
