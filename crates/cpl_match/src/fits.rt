//! How well ports fit an import.

ghost use Rattle.std.specs.Prelude.{◌≡◌};
ghost use Rattle.cpl_dict.specs.Dict.{bond_of};
ghost use Rattle.cpl_dict.specs.Numbers.{number_of};
ghost use Rattle.cpl_match.specs.Matching.{best_fit, fit};
ghost use Rattle.cpl_match.specs.Scopes.{AreNumbered, IsSought};

use crate::bits::has_bit;
use crate::port::Port;
use crate::way_table::WayTable;
use cpl_dict::Dict;

/// What imports are matched over.
#[derive(Clone, Copy)]
pub(crate) struct Scope<'a> {
    /// All imports and exports.
    pub ports: &'a [Port],
    /// The number of each one's standard name, where the dictionary has it.
    pub numbers: &'a [Option<usize>],
    /// The numbers of cells of the components.
    pub cells: &'a [u32],
    /// The dictionary.
    pub dict: &'a Dict,
    /// The ways between components.
    pub ways: &'a WayTable,
}

/// An import for which an export is sought.
#[derive(Clone, Copy)]
pub(crate) struct Sought<'a> {
    /// The import.
    pub port: &'a Port,
    /// The number of its standard name, where the dictionary has it.
    pub number: Option<usize>,
    /// For each name of the dictionary a word that has the import's bit where a synonym call gave both names.
    pub shared: &'a [u64],
    /// The import's bit.
    pub bit: usize,
}

/// How well those ports fit an import that fit it best.
pub(crate) fn best_fit(scope: Scope<'_>, import: Sought<'_>) -> u8
    requires numbered { AreNumbered scope.dict.now scope.ports.now scope.numbers.now }
    requires sought { IsSought scope.dict.now import }
    ensures { result ≡ best_fit scope.entry.dict.now scope.entry.ways.now scope.entry.ports.now import.entry.port.now }
{
    let mut best = 0;
    for place in 0..scope.ports.len() {
        let fits = fit(scope, import, &scope.ports[place], scope.numbers[place]);
        if best < fits {
            best = fits;
        }
    }
    best
}

/// How well a port fits an import, by the number of its standard name. Constant time where the dictionary has
/// both names.
pub(crate) fn fit(scope: Scope<'_>, import: Sought<'_>, port: &Port, number: Option<usize>) -> u8
    requires number { number ≡ number_of scope.dict.now port.now.standard }
    requires sought { IsSought scope.dict.now import }
    ensures { result ≡ fit scope.entry.dict.now scope.entry.ways.now import.entry.port.now port.now }
{
    let way = scope.ways.way(port.component, import.port.component);
    if port.import || way.is_none() {
        return 0;
    }
    bond(scope.dict, import, port, number)
}

/// How well the standard name of a port matches that of an import.
fn bond(dict: &Dict, import: Sought<'_>, port: &Port, number: Option<usize>) -> u8
    requires number { number ≡ number_of dict.now port.now.standard }
    requires sought { IsSought dict.now import }
    ensures { result ≡ bond_of dict.now port.now.standard import.entry.port.now.standard }
{
    dict.number_laws();
    match (number, import.number) {
        (Some(other), Some(own)) => {
            if other == own {
                2
            } else if has_bit(import.shared, other, import.bit) {
                1
            } else {
                0
            }
        }
        _ => {
            if port.standard.bytes() == import.port.standard.bytes() {
                2
            } else {
                0
            }
        }
    }
}
