ghost use Rattle.std.specs.Prelude.{◌≡◌, ◌<◌, ◌≤◌, [], Some, min, length, IfOk, IsErrOf};
ghost use Rattle.std.specs.Io.KnownBytes.{WriteAppends};
ghost use Rattle.outer_traits.specs.Causes.{HasOuterCause};
ghost use Rattle.outer_memory.specs.Plan.{FollowsPlan};

use crate::fault_plan::FaultPlan;
use crate::no_fault_sink::NoFaultSink;
use outer_traits::{Outer, OuterError, Sink};
use std::alloc::Global;

/// A sink that keeps what it is given, and whose writes fail where its plan says.
#[derive(Debug, Drop)]
pub struct MemorySink {
    /// What it holds.
    pub sink: NoFaultSink,
    /// Which writes fail.
    pub plan: FaultPlan,
    /// How many writes have failed.
    pub faults: u64,
}

impl MemorySink {
    /// An empty sink, of which each write takes at most `most` bytes.
    pub fn new(alloc: Global, most: usize, plan: FaultPlan) -> Self
        requires { 0 < most }
        ensures sink { result.sink ≡ record { bytes = []; most = most } }
        ensures plan { result.plan ≡ plan }
        ensures contents { ⟦<MemorySink as Sink>⟧.contents result ≡ Some [] }
        ensures faults { ⟦<MemorySink as Sink>⟧.faults result ≡ 0 }
    {
        MemorySink {
            sink: NoFaultSink::new(alloc, most),
            plan,
            faults: 0,
        }
    }

    /// What it was given.
    pub fn bytes(&self) -> &[u8]
        ensures { ⟦<MemorySink as Sink>⟧.contents self.now ≡ Some result.now }
    {
        self.sink.bytes()
    }
}

impl Sink for MemorySink {
    ghost contents = { λ s. Some s.sink.bytes };

    ghost faults = { λ s. s.faults };

    fn write(&mut self, bytes: &[u8]) -> Outer<usize>
        requires { 0 < length bytes.now }
        ensures bound { IfOk result (λ n. (0 < n) × (n ≤ length bytes.now)) }
        ensures bytes { WriteAppends (Some self.old.sink.bytes) (Some self.new.sink.bytes) result bytes.now }
        ensures cause { HasOuterCause self.old.faults self.new.faults result }

        // When it fails, and how much it takes else.
        ensures plan { FollowsPlan self.old.plan self.new.plan (IsErrOf result OuterError.Failed) }
        ensures count { IfOk result (λ n. n ≡ min (length bytes.now) self.old.sink.most) }
        ensures most { self.new.sink.most ≡ self.old.sink.most }
    {
        if self.plan.next_fails() {
            self.faults = self.faults.saturating_add(1);
            return Err(OuterError::Failed);
        }
        self.sink.write(bytes)
    }
}
