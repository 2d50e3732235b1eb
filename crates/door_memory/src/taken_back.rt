//! The sessions that were taken back.

ghost use Rattle.std.specs.Prelude.{◌≡◌, ◌++◌, ◌∷◌, [], MatchOption};
ghost use Rattle.door_memory.specs.TakenBack.{told_in, told_of};

use door_traits::Client;
use outer_memory::{MemorySink, MemorySource};
use std::alloc::{AllocError, Global};
use std::mem;

#[derive(Debug, Drop)]
pub(crate) enum Pile {
    Empty,
    On(Client<MemorySource, MemorySink>, Box<Pile>),
}

/// The memory of one session more.
#[derive(Debug, Drop)]
pub(crate) struct Blank {
    blank: Box<Pile>,
}

impl Blank {
    pub(crate) fn new(alloc: Global) -> Result<Self, AllocError> {
        let blank = Box::new(alloc, Pile::Empty)?;
        Ok(Blank { blank })
    }
}

impl Pile {
    /// Lays a session on top, in the memory that it brings for that.
    pub(crate) fn push(&mut self, blank: Blank, session: Client<MemorySource, MemorySink>)
        ensures { told_in self.new ≡ told_in self.old ++ told_of session ∷ [] }
    {
        let mut below = blank.blank;
        *below = mem::replace(self, Pile::Empty);
        *self = Pile::On(session, below);
    }

    /// Takes the session off that was laid on last.
    pub(crate) fn pop(&mut self) -> Option<Client<MemorySource, MemorySink>>
        ensures { MatchOption result ((told_in self.old ≡ []) × (told_in self.new ≡ []))
            (λ session. told_in self.old ≡ told_in self.new ++ told_of session ∷ []) }
    {
        match mem::replace(self, Pile::Empty) {
            Pile::Empty => None,
            Pile::On(session, below) => {
                *self = Box::into_inner(below);
                Some(session)
            }
        }
    }
}
