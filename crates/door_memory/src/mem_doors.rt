ghost use Rattle.std.specs.Prelude.{◌≡◌, ◌↔◌, ◌⊎◌, ◌+◌, ◌++◌, ◌∷◌, ℕ, true, List, [], Some, IfOk, OnOk, OnErr, IsErrOf, Contains, MatchOption};
ghost use Rattle.outer_traits.specs.Causes.{HasOuterCause};
ghost use Rattle.outer_memory.specs.Plan.{FollowsPlan, next_call};
ghost use Rattle.door_traits.specs.Sessions.{Comes, Told, told};
ghost use Rattle.door_memory.specs.TakenBack.{told_in, told_of};

use crate::door_source::DoorSource;
use crate::taken_back::{Blank, Pile};
use crate::visitor::Visitor;
use door_traits::{Client, Doors, Outer, OuterError};
use outer_memory::{FaultPlan, MemorySink, MemorySource};
use std::alloc::{AllocError, Global};
use std::collections::VecDeque;

/// Doors in memory. A call fails where the plan says so, and `accept` also where nobody is expected any more.
#[derive(Debug, Drop)]
pub struct MemDoors {
    /// Which calls of `open` and `accept` fail.
    pub plan: FaultPlan,
    /// How many calls have failed.
    pub faults: u64,
    coming: VecDeque<Visitor>,
    back: Pile,
    alloc: Global,
}

impl MemDoors {
    /// Doors at which nobody is expected yet.
    pub fn new(alloc: Global, plan: FaultPlan) -> Self
        ensures plan { result.plan ≡ plan }
        ensures coming { ⟦<MemDoors as Doors>⟧.coming result ≡ [] }
        ensures back { ⟦<MemDoors as Doors>⟧.back result ≡ [] }
        ensures faults { ⟦<MemDoors as Doors>⟧.faults result ≡ 0 }
    {
        MemDoors {
            plan,
            faults: 0,
            coming: VecDeque::new(alloc),
            back: Pile::Empty,
            alloc,
        }
    }

    /// Expects one visitor more, behind the others.
    pub fn expect(&mut self, visitor: Visitor) -> Result<(), AllocError>
        ensures ok { OnOk result (self.new.coming.items ≡ self.old.coming.items ++ visitor ∷ []) }
        ensures err { OnErr result (self.new.coming.items ≡ self.old.coming.items) }
        ensures plan { self.new.plan ≡ self.old.plan }
        ensures back { ⟦<MemDoors as Doors>⟧.back self.new ≡ ⟦<MemDoors as Doors>⟧.back self.old }
        ensures faults { ⟦<MemDoors as Doors>⟧.faults self.new ≡ ⟦<MemDoors as Doors>⟧.faults self.old }
    {
        self.coming.push_back(visitor)?;
        Ok(())
    }

    /// Hands out the session that was taken back last.
    pub fn give_last(&mut self) -> Option<Client<MemorySource, MemorySink>>
        ensures { MatchOption result (⟦<MemDoors as Doors>⟧.back self.old ≡ [])
            (λ session. ⟦<MemDoors as Doors>⟧.back self.old
            ≡ ⟦<MemDoors as Doors>⟧.back self.new ++ told_of session ∷ []) }
    {
        self.back.pop()
    }
}

impl Doors for MemDoors {
    type In = DoorSource;

    type Out = MemorySink;

    ghost tells = { true };

    ghost coming = { λ d. d.coming.items };

    ghost back = { λ d. told_in d.back };

    ghost faults = { λ d. d.faults };

    fn open(&mut self, _address: &str) -> Outer<()>
        ensures coming { self.new.coming.items ≡ self.old.coming.items }
        ensures back { told_in self.new.back ≡ told_in self.old.back }
        ensures cause { HasOuterCause self.old.faults self.new.faults result }

        // When it fails.
        ensures plan { FollowsPlan self.old.plan self.new.plan (IsErrOf result OuterError.Failed) }
    {
        if self.plan.next_fails() {
            self.faults = self.faults.saturating_add(1);
            return Err(OuterError::Failed);
        }
        Ok(())
    }

    fn accept(&mut self) -> Outer<(DoorSource, MemorySink)>
        ensures unfailed { IfOk result (λ ends. (ends.0.source.faults ≡ 0) × (ends.1.faults ≡ 0)) }
        ensures comes { IfOk result (λ ends. Comes self.old.coming.items self.new.coming.items
            (Some ends.0.source.source.bytes) (Some ends.1.sink.bytes)) }
        ensures none { OnErr result (self.new.coming.items ≡ self.old.coming.items) }
        ensures back { told_in self.new.back ≡ told_in self.old.back }
        ensures cause { HasOuterCause self.old.faults self.new.faults result }

        // When it fails, and what counts for the next call.
        ensures fails { IsErrOf result OuterError.Failed
            ↔ (Contains self.old.plan.fails (next_call self.old.plan) ⊎ (self.old.coming.items ≡ [])) }
        ensures plan { self.new.plan ≡ record self.old.plan { calls = next_call self.old.plan } }
    {
        let planned = self.plan.next_fails();
        if planned || self.coming.is_empty() {
            self.faults = self.faults.saturating_add(1);
            return Err(OuterError::Failed);
        }
        let blank = Blank::new(self.alloc)?;
        let Visitor { source, sink } = self.coming.pop_front().unwrap();
        Ok((DoorSource { source, blank }, sink))
    }

    fn take_back(&mut self, source: DoorSource, sink: MemorySink) {
        let DoorSource { source, blank } = source;
        self.back.push(blank, Client { source, sink });
    }
}
