ghost use Rattle.std.specs.Prelude.{◌≡◌, ◌<◌};

use outer_memory::{FaultPlan, MemorySink, MemorySource};
use std::alloc::Global;
use std::marker::Model;

/// A session that is expected. A contract sees the bytes that it will give.
#[derive(Debug, Drop)]
pub struct Visitor {
    pub(crate) source: MemorySource,
    pub(crate) sink: MemorySink,
}

impl Model for Visitor {
    ghost use Rattle.std.specs.Prelude.{◌≡◌, ℕ, List, []};

    ghost Value = { List ℕ };

    ghost view = { λ v. v.source.source.bytes };

    ghost invariant = { λ v. (v.source.faults ≡ 0) × (v.sink.faults ≡ 0) × (v.sink.sink.bytes ≡ []) };
}

impl Visitor {
    /// It gives these bytes. A read gives and a write takes at most `most`, and those fail that are planned to.
    pub fn new(
        alloc: Global,
        input: Vec<u8>,
        most: usize,
        reads: FaultPlan,
        writes: FaultPlan,
    ) -> Self
        requires { 0 < most }
        ensures { result ≡ input.items }
    {
        Visitor {
            source: MemorySource::new(input, most, reads),
            sink: MemorySink::new(alloc, most, writes),
        }
    }
}
