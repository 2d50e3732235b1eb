ghost use Rattle.std.specs.Prelude.{◌≡◌, ◌<◌, ◌≤◌, [], Some, min, length, IfOk};
ghost use Rattle.std.specs.Io.KnownBytes.{WriteAppends};
ghost use Rattle.outer_traits.specs.Causes.{HasOuterCause};
ghost use Rattle.outer_memory.specs.Held.{Pieces};

use outer_traits::{Outer, Sink};
use std::alloc::Global;
use std::marker::Model;

/// A sink that keeps what it is given and never fails, though memory may run out.
#[derive(Debug, Drop)]
pub struct NoFaultSink {
    bytes: Vec<u8>,
    most: usize,
}

impl Model for NoFaultSink {
    ghost Value = { Pieces };

    ghost view = { λ s. record { bytes = s.bytes.items; most = s.most } };

    ghost invariant = { λ s. 0 < s.most };
}

impl NoFaultSink {
    /// An empty sink, of which each write takes at most `most` bytes.
    pub fn new(alloc: Global, most: usize) -> Self
        requires { 0 < most }
        ensures value { result ≡ record { bytes = []; most = most } }
        ensures contents { ⟦<NoFaultSink as Sink>⟧.contents result ≡ Some [] }
        ensures faults { ⟦<NoFaultSink as Sink>⟧.faults result ≡ 0 }
    {
        NoFaultSink {
            bytes: Vec::new(alloc),
            most,
        }
    }

    /// What it was given.
    pub fn bytes(&self) -> &[u8]
        ensures { ⟦<NoFaultSink as Sink>⟧.contents self.now ≡ Some result.now }
    {
        self.bytes.as_slice()
    }
}

impl Sink for NoFaultSink {
    ghost contents = { λ s. Some s.bytes };

    ghost faults = { λ _. 0 };

    fn write(&mut self, bytes: &[u8]) -> Outer<usize>
        requires { 0 < length bytes.now }
        ensures bound { IfOk result (λ n. (0 < n) × (n ≤ length bytes.now)) }
        ensures bytes { WriteAppends (Some self.old.bytes) (Some self.new.bytes) result bytes.now }
        ensures cause { HasOuterCause 0 0 result }

        // How much it takes.
        ensures count { IfOk result (λ n. n ≡ min (length bytes.now) self.old.most) }
        ensures most { self.new.most ≡ self.old.most }
    {
        let count = bytes.len().min(self.most);
        self.bytes.extend_from_slice(&bytes[..count])?;
        Ok(count)
    }
}
