//! Bytes that grow.
ghost use Rattle.std.specs.Prelude.{◌≡◌, ◌++◌, ◌∷◌, [], IfOk};

use std::alloc::{AllocError, Global};
use std::marker::Model;

/// Bytes that grow. A contract sees their list.
#[derive(Drop)]
pub struct Text {
    items: Vec<u8>,
}

impl Model for Text {
    ghost use Rattle.std.specs.Prelude.{List, ℕ};

    ghost Value = { List ℕ };

    ghost view = { λ text. text.items.items };
}

impl Text {
    /// None.
    pub fn new(alloc: Global) -> Text
        ensures { result ≡ [] }
    {
        Text {
            items: Vec::new(alloc),
        }
    }

    /// The bytes.
    pub fn bytes(&self) -> &[u8]
        ensures { result.now ≡ self.now }
    {
        self.items.as_slice()
    }

    /// Adds some bytes.
    pub fn add(&mut self, bytes: &[u8]) -> Result<(), AllocError>
        ensures { IfOk result (λ _. self.new ≡ self.old ++ bytes.now) }
    {
        self.items.extend_from_slice(bytes)?;
        Ok(())
    }

    /// Adds a byte.
    pub fn add_byte(&mut self, byte: u8) -> Result<(), AllocError>
        ensures { IfOk result (λ _. self.new ≡ self.old ++ byte ∷ []) }
    {
        self.items.push(byte)?;
        Ok(())
    }

    /// Takes all of them away.
    pub fn clear(&mut self)
        ensures { self.new ≡ [] }
    {
        self.items.clear();
    }
}
