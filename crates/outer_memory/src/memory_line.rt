ghost use Rattle.std.specs.Prelude.{◌≡◌, ◌↔◌, ◌+◌, ◌++◌, ◌≤◌, length, vec_len, vec_capacity, IfOk, IsErr, OnOk, OnErr};
ghost use Rattle.outer_traits.specs.Causes.{HasLineCause};
ghost use Rattle.outer_traits.specs.Lines.{Carries};
ghost use Rattle.outer_memory.specs.Frames.{MustFail, told_frames};
ghost use Rattle.outer_memory.specs.Plan.{next_call};

use crate::fault_plan::FaultPlan;
use crate::kept_frames::KeptFrames;
use outer_traits::{BlankRecord, Ends, Failed, Line};
use std::alloc::{AllocError, Global};

/// What a line in memory tells when it is taken back.
#[derive(Debug, Drop)]
pub struct Told {
    /// How often it failed.
    pub faults: u64,
    /// What it carried.
    pub kept: KeptFrames,
}

/// A line that keeps the frames that it carried, and fails where its plan says, or where its room ends.
#[derive(Debug, Drop)]
pub struct MemoryLine {
    /// Between whom it is.
    pub ends: Ends,
    /// Which carries are planned to fail.
    pub plan: FaultPlan,
    /// How often it failed.
    pub faults: u64,
    /// What it carried.
    pub kept: KeptFrames,
    /// The memory in which it is noted when it is taken back.
    pub blank: BlankRecord<Told>,
}

impl MemoryLine {
    /// A line that has carried nothing, with the room that is given.
    pub fn new(
        alloc: Global,
        ends: Ends,
        plan: FaultPlan,
        kept: KeptFrames,
    ) -> Result<Self, AllocError>
        ensures ends { IfOk result (λ line. line.ends ≡ ends) }
        ensures plan { IfOk result (λ line. line.plan ≡ plan) }
        ensures kept { IfOk result (λ line. line.kept ≡ kept) }
        ensures faults { IfOk result (λ line. line.faults ≡ 0) }
    {
        let blank = BlankRecord::new(alloc)?;
        Ok(MemoryLine {
            ends,
            plan,
            faults: 0,
            kept,
            blank,
        })
    }
}

impl Line for MemoryLine {
    ghost ends = { λ l. l.ends };

    ghost count = { λ l. l.faults };

    ghost carried = { λ l. told_frames l.faults l.kept.frames };

    fn carry(&mut self, frame: &[u8], into: &mut Vec<u8>) -> Result<(), Failed>
        requires room { vec_len into.old + length frame.now ≤ vec_capacity into.old }
        ensures ok { OnOk result (into.new.items ≡ into.old.items ++ frame.now) }
        ensures err { OnErr result (into.new.items ≡ into.old.items) }
        ensures room { vec_capacity into.old ≤ vec_capacity into.new }
        ensures carried { Carries (told_frames self.old.faults self.old.kept.frames)
            (told_frames self.new.faults self.new.kept.frames) frame.now result }
        ensures cause { HasLineCause self.old.faults self.new.faults result }
        ensures ends { self.new.ends ≡ self.old.ends }

        // When it fails, and what counts for the next carry.
        ensures fails { IsErr result ↔ MustFail self.old.faults self.old.plan self.old.kept frame.now }
        ensures plan { self.new.plan ≡ record self.old.plan { calls = next_call self.old.plan } }
    {
        let planned = self.plan.next_fails();
        if self.faults < u64::MAX {
            if planned || !self.kept.has_room(frame.len()) {
                self.faults += 1;
                return Err(Failed);
            }
            self.kept.push(frame);
        }
        into.extend_from_slice(frame).unwrap();
        Ok(())
    }

    fn faults(&self) -> u64
        ensures { result ≡ self.now.faults }
    {
        self.faults
    }
}
