//! Connectors with what they carry and how.

use cpl_base::Many;
use cpl_match::Pair;
use cpl_route::Route;
use cpl_sequence::LinkLine;
use cpl_smm::Weights;

/// A connector: which exports feed which imports, and which cells each PET sends to each other for it.
///
/// Source: NUOPC Layer Reference, Connector.
#[derive(Drop)]
pub struct Link {
    /// Its line of the run sequence.
    pub line: LinkLine,
    /// Its pairs, in the order of their imports.
    pub pairs: Many<Pair>,
    /// Which source cells each PET sends to each other; empty where there are no pairs.
    pub route: Route,
    /// The weights by which it carries, where that isn't a redistribution.
    pub weights: Option<Weights>,
}
