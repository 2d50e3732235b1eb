ghost use Rattle.std.specs.Prelude.{◌≡◌, ◌+◌, ◌++◌, ◌≤◌, None, length, vec_len, vec_capacity, IfOk, IsErr, OnOk, OnErr};
ghost use Rattle.outer_traits.specs.Causes.{HasLineCause};
ghost use Rattle.outer_traits.specs.Lines.{Carries};
ghost use Rattle.fault_lines.specs.Planned.{FollowsCarries, new_plan};

use crate::carry_plan::CarryPlan;
use outer_traits::{BlankRecord, Ends, Failed, Line};
use std::alloc::{AllocError, Global};

/// A line that fails at the carries of its plan. It does not tell what it carried.
#[derive(Debug, Drop)]
pub struct PlanLine {
    /// Between whom it is.
    pub ends: Ends,
    /// Which carries fail.
    pub plan: CarryPlan,
    /// The memory in which its count is noted when it is taken back.
    pub blank: BlankRecord<u64>,
}

impl PlanLine {
    /// A line that fails at the carries with these numbers, from 1.
    pub fn new(alloc: Global, ends: Ends, fails: &[u32]) -> Result<Self, AllocError>
        ensures ends { IfOk result (λ line. line.ends ≡ ends) }
        ensures plan { IfOk result (λ line. line.plan ≡ new_plan fails.now) }
    {
        Ok(PlanLine {
            ends,
            plan: CarryPlan::new(alloc, fails)?,
            blank: BlankRecord::new(alloc)?,
        })
    }
}

impl Line for PlanLine {
    ghost ends = { λ l. l.ends };

    ghost count = { λ l. l.plan.count };

    ghost carried = { λ _. None };

    fn carry(&mut self, frame: &[u8], into: &mut Vec<u8>) -> Result<(), Failed>
        requires room { vec_len into.old + length frame.now ≤ vec_capacity into.old }
        ensures ok { OnOk result (into.new.items ≡ into.old.items ++ frame.now) }
        ensures err { OnErr result (into.new.items ≡ into.old.items) }
        ensures room { vec_capacity into.old ≤ vec_capacity into.new }
        ensures carried { Carries None None frame.now result }
        ensures cause { HasLineCause self.old.plan.count self.new.plan.count result }
        ensures ends { self.new.ends ≡ self.old.ends }

        // Which carries fail.
        ensures plan { FollowsCarries self.old.plan self.new.plan (IsErr result) }
    {
        if self.plan.next_fails() {
            return Err(Failed);
        }
        into.extend_from_slice(frame).unwrap();
        Ok(())
    }

    fn faults(&self) -> u64
        ensures { result ≡ self.now.plan.count }
    {
        self.plan.faults()
    }
}
