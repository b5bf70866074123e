// Some bytes.
ghost use Rattle.std.specs.Prelude.{◌≡◌, IfOk};

use std::alloc::{AllocError, Global};
use std::marker::Model;

/// A run of bytes, in any encoding. Contracts see the list.
#[derive(Debug, Drop)]
pub struct Bytes {
    bytes: Vec<u8>,
}

impl Model for Bytes {
    ghost use Rattle.std.specs.Prelude.{List, ℕ};

    ghost Value = { List ℕ };

    ghost view = { λ b. b.bytes.items };
}

impl Bytes {
    /// These bytes.
    pub fn new(bytes: Vec<u8>) -> Bytes
        ensures { result ≡ bytes.items }
    {
        Bytes { bytes }
    }

    /// The bytes, as a slice.
    pub fn as_slice(&self) -> &[u8]
        ensures { result.now ≡ self.now }
    {
        self.bytes.as_slice()
    }

    /// Equal bytes. The only error is want of memory.
    pub fn copy(&self, alloc: Global) -> Result<Bytes, AllocError>
        ensures { IfOk result (λ b. b ≡ self.now) }
    {
        let bytes = Vec::from_slice(alloc, self.bytes.as_slice())?;
        Ok(Bytes { bytes })
    }
}
