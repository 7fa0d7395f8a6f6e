//! Bytes that contracts see as the list of them.

ghost use Rattle.std.specs.Prelude.{◌≡◌, List, ℕ, IfOk};

use crate::memory::Memory;
use std::alloc::Global;
use std::marker::Model;

/// A word, a name or a longer text of the files that a run reads.
#[derive(Debug, Drop)]
pub struct Text {
    held: Vec<u8>,
}

impl Model for Text {
    ghost Value = { List ℕ };

    ghost view = { λ t. t.held.items };
}

impl Text {
    /// A text of its own with these bytes.
    ///
    /// Source: this project's own.
    pub fn of(alloc: Global, bytes: &[u8]) -> Result<Text, Memory>
        ensures { IfOk result (λ text. text ≡ bytes.now) }
    {
        Ok(Text {
            held: Vec::from_slice(alloc, bytes)?,
        })
    }

    /// The text that these bytes are. Takes no memory.
    ///
    /// Source: this project's own.
    pub fn from_vec(bytes: Vec<u8>) -> Text
        ensures { result ≡ bytes.items }
    {
        Text { held: bytes }
    }

    /// The bytes, lent.
    ///
    /// Source: this project's own.
    pub fn bytes(&self) -> &[u8]
        ensures { result.now ≡ self.now }
    {
        self.held.as_slice()
    }
    /// The bytes, given back. Takes no memory.
    ///
    /// Source: this project's own.
    pub fn into_vec(self) -> Vec<u8>
        ensures { result.items ≡ self }
    {
        let Text { held } = self;
        held
    }

    /// Another text with the same bytes.
    ///
    /// Source: this project's own.
    pub fn copy(&self, alloc: Global) -> Result<Text, Memory>
        ensures { IfOk result (λ text. text ≡ self.now) }
    {
        Text::of(alloc, self.bytes())
    }
}
