ghost use Rattle.std.specs.Prelude.{◌≡◌, ◌+◌, ◌++◌, ◌≤◌, None, Ok, length, vec_len, vec_capacity};
ghost use Rattle.outer_traits.specs.Causes.{HasLineCause};
ghost use Rattle.outer_traits.specs.Lines.{Carries};

use outer_traits::{Ends, Failed, Line, Wiring};
use std::alloc::AllocError;

/// A line that never fails. It does not tell what it carried.
#[derive(Debug, Drop)]
pub struct NoFaultLine {
    /// Between whom it is.
    pub ends: Ends,
}

impl Line for NoFaultLine {
    ghost ends = { λ l. l.ends };

    ghost count = { λ _. 0 };

    ghost carried = { λ _. None };

    fn carry(&mut self, frame: &[u8], into: &mut Vec<u8>) -> Result<(), Failed>
        requires room { vec_len into.old + length frame.now ≤ vec_capacity into.old }
        ensures ok { (result ≡ Ok tt) × (into.new.items ≡ into.old.items ++ frame.now) }
        ensures room { vec_capacity into.old ≤ vec_capacity into.new }
        ensures same { self.new ≡ self.old }
    {
        into.extend_from_slice(frame).unwrap();
        Ok(())
    }

    fn faults(&self) -> u64 {
        0
    }
}

/// The wiring of lines that never fail.
#[derive(Debug, Drop)]
pub struct NoFaultWiring;

impl Wiring for NoFaultWiring {
    type L = NoFaultLine;

    ghost counts = { λ _ _ _. 0 };

    ghost carried = { λ _ _ _. None };

    ghost asked = { λ _. None };

    fn line(&mut self, worker: u8, replica: u8, _fail: &[u32]) -> Result<NoFaultLine, AllocError> {
        Ok(NoFaultLine {
            ends: Ends { worker, replica },
        })
    }

    fn take_back(&mut self, _line: NoFaultLine) {}
}
