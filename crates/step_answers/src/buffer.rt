ghost use Rattle.std.specs.Prelude.{◌≡◌, [], length, IfOk};

use std::alloc::{AllocError, Global};
use std::marker::Model;
use volume_model::Sequence;

/// Bytes that are read from a replica, in memory of their own. Contracts see the list.
#[derive(Debug, Drop)]
pub struct Buffer {
    pub bytes: Vec<u8>,
}

impl Model for Buffer {
    ghost use Rattle.std.specs.Prelude.{List, ℕ};

    ghost Value = { List ℕ };

    ghost view = { λ b. b.bytes.items };
}

impl Buffer {
    /// No bytes. It takes no memory.
    pub fn none(alloc: Global) -> Buffer
        ensures { result ≡ [] }
    {
        Buffer {
            bytes: Vec::new(alloc),
        }
    }

    /// So many bytes.
    pub fn of_length(alloc: Global, count: usize) -> Result<Buffer, AllocError>
        ensures { IfOk result (λ b. length b ≡ count) }
    {
        Ok(Buffer {
            bytes: vec![in alloc; 0; count]?,
        })
    }

    pub fn as_slice(&self) -> &[u8]
        ensures { result.now ≡ self.now }
    {
        &self.bytes
    }

    /// The bytes as a list that does not change. It takes no memory.
    pub fn into_sequence(self) -> Sequence<u8>
        ensures { result ≡ self }
    {
        let Buffer { bytes } = self;
        Sequence::of(bytes)
    }
}
