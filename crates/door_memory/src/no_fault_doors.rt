ghost use Rattle.std.specs.Prelude.{◌≡◌, [], false, Ok, IsOkAnd};

use door_traits::{Doors, Outer};
use outer_memory::{NoFaultSink, NoFaultSource};
use std::alloc::Global;

/// Doors that never fail. Each session that they let in gives nothing. They tell nothing of what comes and goes.
#[derive(Debug, Drop)]
pub struct NoFaultDoors {
    pub alloc: Global,
}

impl Doors for NoFaultDoors {
    type In = NoFaultSource;

    type Out = NoFaultSink;

    ghost tells = { false };

    ghost coming = { λ _. [] };

    ghost back = { λ _. [] };

    ghost faults = { λ _. 0 };

    fn open(&mut self, _address: &str) -> Outer<()>
        ensures ok { result ≡ Ok tt }
    {
        Ok(())
    }

    fn accept(&mut self) -> Outer<(NoFaultSource, NoFaultSink)>
        ensures ok { IsOkAnd result (λ ends. (ends.0.bytes ≡ []) × (ends.1.bytes ≡ [])) }
    {
        let source = NoFaultSource::new(Vec::new(self.alloc), 1);
        Ok((source, NoFaultSink::new(self.alloc, usize::MAX)))
    }

    fn take_back(&mut self, _source: NoFaultSource, _sink: NoFaultSink) {}
}
