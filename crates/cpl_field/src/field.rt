//! A field, and how one takes another's place.

ghost use Rattle.std.specs.Prelude.{◌≡◌, ◌<◌, length, slice_index_or, slice_set, []};

use std::alloc::{AllocError, Global};
use std::marker::Model;
use std::mem::swap;

/// The values of a variable at all places of a block, in millionths. Contracts see it as the list of them.
///
/// Source: this project's own.
#[derive(Drop)]
pub struct Field {
    held: Vec<i64>,
}

impl Model for Field {
    ghost use Rattle.std.specs.Prelude.{List, ℤ};

    ghost Value = { List ℤ };

    ghost view = { λ f. f.held.items };
}

impl Field {
    ghost use Rattle.std.specs.Prelude.{◌≡◌, IfOk, pos, replicate};
    ghost use Rattle.std.specs.Borrow.{sem};
    ghost use Rattle.cpl_field.specs.Lending.{LendsValues};

    /// A field of so many places, 0 at each. All memory is taken here.
    ///
    /// Errors: `AllocError` where memory runs out.
    ///
    /// Source: this project's own.
    pub fn new(alloc: Global, places: usize) -> Result<Field, AllocError>
        ensures { IfOk result (λ field. field ≡ replicate places (pos 0)) }
    {
        Ok(Field {
            held: Vec::from_elem(alloc, 0, places)?,
        })
    }

    /// The values, lent.
    ///
    /// Source: this project's own.
    pub fn values(&self) -> &[i64]
        ensures { result.now ≡ self.now }
    {
        self.held.as_slice()
    }

    /// The values, lent to be changed: the field becomes what is left in the slice.
    ///
    /// Source: this project's own.
    pub fn values_mut(&mut self) -> &mut [i64]
        ensures* writes_back { sem 𝓛 (LendsValues self.entry result) }
        ensures value { result.now ≡ self.old }
    {
        self.held.as_mut_slice()
    }
}

/// Puts a field at a place among fields, and what stood there where it came from. Takes no memory, and copies no value.
///
/// Source: this project's own.
pub fn replace(fields: &mut [Field], at: usize, next: &mut Field)
    requires { at < length fields.old }
    ensures fields { fields.new ≡ slice_set fields.old at next.old }
    ensures next { next.new ≡ slice_index_or fields.old at [] }
{
    swap(&mut fields[at], next);
}
