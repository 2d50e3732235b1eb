ghost use Rattle.std.specs.Prelude.{◌≡◌, ℕ, List, true, Some, None, map, take, string_bytes, IfOk, OnOk, OnErr, IsErrOf};
ghost use Rattle.std.specs.Option.{option_map};
ghost use Rattle.outer_traits.specs.Causes.{HasOuterCause};
ghost use Rattle.outer_memory.specs.Plan.{FollowsPlan};
ghost use Rattle.target_memory.specs.Kept.{objects_of};
ghost use Rattle.target_traits.specs.Objects.{ObjectBecomes, OtherObjectsStay, ListsObjects};

use crate::no_fault_target::NoFaultTarget;
use outer_memory::FaultPlan;
use std::alloc::Global;
use target_traits::{Outer, OuterError, Target};

/// A target that keeps what it is given, and of which calls fail where a plan says. A call that fails does nothing.
#[derive(Debug, Drop)]
pub struct MemoryTarget {
    /// What it holds.
    pub target: NoFaultTarget,
    /// Which calls fail.
    pub plan: FaultPlan,
    /// How many calls have failed.
    pub faults: u64,
}

impl MemoryTarget {
    pub fn new(alloc: Global, plan: FaultPlan) -> Self
        ensures target { (name : List ℕ) → objects_of result.target name ≡ None }
        ensures plan { result.plan ≡ plan }
        ensures faults { result.faults ≡ 0 }
    {
        MemoryTarget {
            target: NoFaultTarget::new(alloc),
            plan,
            faults: 0,
        }
    }

    /// Counts one call more, which fails where the plan says so.
    fn pass(&mut self) -> Outer<()>
        ensures same { self.new.target ≡ self.old.target }
        ensures cause { HasOuterCause self.old.faults self.new.faults result }
        ensures plan { FollowsPlan self.old.plan self.new.plan (IsErrOf result OuterError.Failed) }
    {
        if self.plan.next_fails() {
            self.faults = self.faults.saturating_add(1);
            return Err(OuterError::Failed);
        }
        Ok(())
    }
}

impl Target for MemoryTarget {
    ghost tells = { true };

    ghost holds = { λ t. objects_of t.target };

    ghost faults = { λ t. t.faults };

    // Each call fails where its number is in the plan, and is counted.
    fn get(&mut self, name: &str, most: usize) -> Outer<Option<Vec<u8>>>
        ensures same { objects_of self.new.target ≡ objects_of self.old.target }
        ensures bytes { IfOk result (λ got.
            option_map (λ v. v.items) got ≡ option_map (take most) (objects_of self.old.target name.now)) }
        ensures cause { HasOuterCause self.old.faults self.new.faults result }
        ensures plan { FollowsPlan self.old.plan self.new.plan (IsErrOf result OuterError.Failed) }
    {
        self.pass()?;
        self.target.get(name, most)
    }

    fn put(&mut self, name: &str, bytes: &[u8]) -> Outer<()>
        ensures ok { OnOk result
            (ObjectBecomes name.now (Some bytes.now) (objects_of self.old.target) (objects_of self.new.target)) }
        ensures others { OtherObjectsStay name.now (objects_of self.old.target) (objects_of self.new.target) }
        ensures err { OnErr result (objects_of self.new.target ≡ objects_of self.old.target) }
        ensures cause { HasOuterCause self.old.faults self.new.faults result }
        ensures plan { FollowsPlan self.old.plan self.new.plan (IsErrOf result OuterError.Failed) }
    {
        self.pass()?;
        Ok(self.target.hold(name, bytes)?)
    }

    fn list(&mut self, prefix: &str) -> Outer<Vec<String>>
        ensures same { objects_of self.new.target ≡ objects_of self.old.target }
        ensures names { IfOk result (λ names.
            ListsObjects prefix.now (map string_bytes names.items) (objects_of self.old.target)) }
        ensures cause { HasOuterCause self.old.faults self.new.faults result }
        ensures plan { FollowsPlan self.old.plan self.new.plan (IsErrOf result OuterError.Failed) }
    {
        self.pass()?;
        self.target.list(prefix)
    }

    fn remove(&mut self, name: &str) -> Outer<()>
        ensures ok { OnOk result
            (ObjectBecomes name.now None (objects_of self.old.target) (objects_of self.new.target)) }
        ensures others { OtherObjectsStay name.now (objects_of self.old.target) (objects_of self.new.target) }
        ensures err { OnErr result (objects_of self.new.target ≡ objects_of self.old.target) }
        ensures cause { HasOuterCause self.old.faults self.new.faults result }
        ensures plan { FollowsPlan self.old.plan self.new.plan (IsErrOf result OuterError.Failed) }
    {
        self.pass()?;
        self.target.take_away(name);
        Ok(())
    }
}
