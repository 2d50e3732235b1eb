ghost use Rattle.std.specs.Prelude.{◌≡◌, ◌<◌, Some, length, IfOk, IsErr};
ghost use Rattle.std.specs.Io.{ReadsAtMost};
ghost use Rattle.std.specs.Io.KnownBytes.{ReadConsumes};
ghost use Rattle.outer_traits.specs.Causes.{HasCause};
ghost use Rattle.outer_memory.specs.Held.{read_length};
ghost use Rattle.outer_memory.specs.Plan.{FollowsPlan};

use crate::fault_plan::FaultPlan;
use crate::no_fault_source::NoFaultSource;
use outer_traits::{Failed, Source};

/// A source of given bytes, whose reads fail where its plan says.
#[derive(Debug, Drop)]
pub struct MemorySource {
    /// What it gives.
    pub source: NoFaultSource,
    /// Which reads fail.
    pub plan: FaultPlan,
    /// How many reads have failed.
    pub faults: u64,
}

impl MemorySource {
    /// These bytes, of which each read gives at most `most`.
    pub fn new(bytes: Vec<u8>, most: usize, plan: FaultPlan) -> Self
        requires { 0 < most }
        ensures source { result.source ≡ record { bytes = bytes.items; most = most } }
        ensures plan { result.plan ≡ plan }
        ensures left { ⟦<MemorySource as Source>⟧.left result ≡ Some bytes.items }
        ensures faults { ⟦<MemorySource as Source>⟧.faults result ≡ 0 }
    {
        MemorySource {
            source: NoFaultSource::new(bytes, most),
            plan,
            faults: 0,
        }
    }

    /// The bytes that are left.
    pub fn left(&self) -> &[u8]
        ensures { ⟦<MemorySource as Source>⟧.left self.now ≡ Some result.now }
    {
        self.source.left()
    }
}

impl Source for MemorySource {
    ghost left = { λ s. Some s.source.bytes };

    ghost faults = { λ s. s.faults };

    fn read(&mut self, into: &mut [u8]) -> Result<usize, Failed>
        ensures bound { ReadsAtMost result into.new }
        ensures bytes { ReadConsumes (Some self.old.source.bytes) (Some self.new.source.bytes) result into.new }
        ensures cause { HasCause self.old.faults self.new.faults result }

        // When it fails, and how much it gives else.
        ensures plan { FollowsPlan self.old.plan self.new.plan (IsErr result) }
        ensures count { IfOk result (λ n. n ≡ read_length self.old.source (length into.old)) }
        ensures most { self.new.source.most ≡ self.old.source.most }
    {
        if self.plan.next_fails() {
            self.faults = self.faults.saturating_add(1);
            return Err(Failed);
        }
        self.source.read(into)
    }
}
