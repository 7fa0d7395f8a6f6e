//! Where names stand in a dictionary.

ghost use Rattle.std.specs.Prelude.{IfOk, IsTrue, is_some};
ghost use Rattle.std.specs.List.{list_all};
ghost use Rattle.std.specs.Map.{lookup};
ghost use Rattle.std.specs.Str.{bytes_eq};
ghost use Rattle.cpl_dict.specs.Kept.{IsPlacedAs, names_of};

use cpl_base::Text;
use indexmap::IndexMap;
use std::alloc::{AllocError, Global};

/// The places of names that are there.
pub(crate) fn places_of(
    alloc: Global,
    names: &IndexMap<Vec<u8>, Text>,
    group: &[Text],
) -> Result<Vec<usize>, AllocError>
    requires { IsTrue (list_all (λ name. is_some (lookup (bytes_eq name) (names_of names.now.entries))) group.now) }
    ensures { IfOk result (λ places. IsPlacedAs (names_of names.now.entries) places.items group.now) }
{
    let mut places = Vec::with_capacity(alloc, group.len())?;
    for name in group {
        match names.get_index_of(name.bytes()) {
            Some(place) => places.push(place)?,
            None => unreachable!(),
        }
    }
    Ok(places)
}
