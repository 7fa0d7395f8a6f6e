//! A list of items that contracts see as the list.

ghost use Rattle.std.specs.Prelude.{◌≡◌, List};

use std::marker::Model;

/// A `Vec` whose contracts speak of its items alone, so that a type with such a field can be compared
/// with what a definition gives.
#[derive(Debug, Drop)]
pub struct Many<T> {
    held: Vec<T>,
}

impl<T> Model for Many<T> {
    ghost Value = { List T };

    ghost view = { λ m. m.held.items };
}

impl<T> Many<T> {
    ghost use Rattle.std.specs.Borrow.{sem};
    ghost use Rattle.cpl_base.specs.Lending.{LendsItems};

    /// These items, in their order. Takes no memory.
    ///
    /// Source: this project's own.
    pub fn of(items: Vec<T>) -> Many<T>
        ensures { result ≡ items.items }
    {
        Many { held: items }
    }

    /// The items, lent.
    ///
    /// Source: this project's own.
    pub fn items(&self) -> &[T]
        ensures { result.now ≡ self.now }
    {
        self.held.as_slice()
    }

    /// The items, lent to be changed: the list becomes what is left in the slice.
    ///
    /// Source: this project's own.
    pub fn as_mut_slice(&mut self) -> &mut [T]
        ensures* writes_back { sem 𝓛 (LendsItems T.row self.entry result) }
        ensures value { result.now ≡ self.old }
    {
        self.held.as_mut_slice()
    }

    /// The items, given back. Takes no memory.
    ///
    /// Source: this project's own.
    pub fn into_items(self) -> Vec<T>
        ensures { result.items ≡ self }
    {
        let Many { held } = self;
        held
    }
}
