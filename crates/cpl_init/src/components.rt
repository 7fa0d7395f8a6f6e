//! Numbers of components that contracts see as a list.

ghost use Rattle.std.specs.Prelude.{◌≡◌, ℕ, List};

use std::marker::Model;

/// Numbers of components, whose contracts speak of the list alone.
#[derive(Debug, Drop)]
pub struct Components {
    held: Vec<u8>,
}

impl Model for Components {
    ghost Value = { List ℕ };

    ghost view = { λ components. components.held.items };
}

impl Components {
    /// These numbers, in their order. Takes no memory.
    ///
    /// Source: this project's own.
    pub fn of(numbers: Vec<u8>) -> Components
        ensures { result ≡ numbers.items }
    {
        Components { held: numbers }
    }

    /// The numbers, lent.
    ///
    /// Source: this project's own.
    pub fn numbers(&self) -> &[u8]
        ensures { result.now ≡ self.now }
    {
        self.held.as_slice()
    }
}
