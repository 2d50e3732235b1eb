ghost use Rattle.std.specs.Prelude.{◌≡◌, ◌+◌, ◌<◌, ◌≤◌, ◌↔◌, [], Some, min, length, IfOk, IsErrOf};
ghost use Rattle.std.specs.Io.KnownBytes.{WriteAppends};
ghost use Rattle.outer_traits.specs.Causes.{HasOuterCause};
ghost use Rattle.outer_memory.specs.Held.{Limited};

use outer_traits::{Outer, OuterError, Sink};
use std::alloc::Global;
use std::marker::Model;

/// A sink that takes so many bytes in all, and fails at each write after.
#[derive(Debug, Drop)]
pub struct LimitedSink {
    bytes: Vec<u8>,
    room: usize,
    faults: u64,
}

impl Model for LimitedSink {
    ghost Value = { Limited };

    ghost view = { λ s. record { bytes = s.bytes.items; room = s.room; faults = s.faults } };
}

impl LimitedSink {
    /// An empty sink that takes `room` bytes in all.
    pub fn new(alloc: Global, room: usize) -> Self
        ensures value { result ≡ record { bytes = []; room = room; faults = 0 } }
        ensures contents { ⟦<LimitedSink as Sink>⟧.contents result ≡ Some [] }
        ensures faults { ⟦<LimitedSink as Sink>⟧.faults result ≡ 0 }
    {
        LimitedSink {
            bytes: Vec::new(alloc),
            room,
            faults: 0,
        }
    }

    /// What it was given.
    pub fn bytes(&self) -> &[u8]
        ensures { ⟦<LimitedSink as Sink>⟧.contents self.now ≡ Some result.now }
    {
        self.bytes.as_slice()
    }
}

impl Sink for LimitedSink {
    ghost contents = { λ s. Some s.bytes };

    ghost faults = { λ s. s.faults };

    fn write(&mut self, bytes: &[u8]) -> Outer<usize>
        requires { 0 < length bytes.now }
        ensures bound { IfOk result (λ n. (0 < n) × (n ≤ length bytes.now)) }
        ensures bytes { WriteAppends (Some self.old.bytes) (Some self.new.bytes) result bytes.now }
        ensures cause { HasOuterCause self.old.faults self.new.faults result }

        // When it fails, how much it takes else, and what room that leaves.
        ensures fails { IsErrOf result OuterError.Failed ↔ (self.old.room ≡ 0) }
        ensures count { IfOk result (λ n. n ≡ min (length bytes.now) self.old.room) }
        ensures room { self.new.room + length self.new.bytes ≡ self.old.room + length self.old.bytes }
    {
        if self.room == 0 {
            self.faults = self.faults.saturating_add(1);
            return Err(OuterError::Failed);
        }
        let count = bytes.len().min(self.room);
        self.bytes.extend_from_slice(&bytes[..count])?;
        self.room -= count;
        Ok(count)
    }
}
