ghost use Rattle.std.specs.Prelude.{◌≡◌, ◌++◌, ◌∷◌, ℕ, [], None, Some, IfOk, OnErr, OnOk, MatchOption, map};
ghost use Rattle.outer_traits.specs.Lines.{IsNewLine, ask_of_line, told_between};
ghost use Rattle.outer_memory.specs.Frames.{told_frames};
ghost use Rattle.outer_memory.specs.Told.{ask_of, faults_told, frames_of};

use crate::fault_plan::FaultPlan;
use crate::kept_frames::{Frame, KeptFrames};
use crate::memory_line::{MemoryLine, Told};
use outer_traits::{Ends, TakenBack, Wiring};
use std::alloc::{AllocError, Global};

/// A line that was asked for: between these ends, to fail at the calls with these numbers.
#[derive(Debug, Drop)]
pub struct LineAsk {
    pub ends: Ends,
    pub fails: Vec<u64>,
}

/// The wiring of lines in memory. It tells which lines it was asked for, how often each of them failed, and what it
/// carried.
#[derive(Debug, Drop)]
pub struct MemoryWiring {
    alloc: Global,
    /// How many frames a line has room for.
    pub room: usize,
    /// How many bytes each of them may have.
    pub longest: usize,
    /// What the lines told that were taken back.
    pub told: TakenBack<Told>,
    /// The lines that it was asked for, in order.
    pub asked: Vec<LineAsk>,
}

impl MemoryWiring {
    /// No line was made yet. Each will have room for so many frames, each of at most `longest` bytes.
    pub fn new(alloc: Global, room: usize, longest: usize) -> Self
        ensures room { result.room ≡ room }
        ensures longest { result.longest ≡ longest }
        ensures told { result.told ≡ [] }
        ensures asked { result.asked.items ≡ [] }
    {
        MemoryWiring {
            alloc,
            room,
            longest,
            told: TakenBack::new(),
            asked: Vec::new(alloc),
        }
    }

    /// How often the line between these ends had failed when it was taken back; 0 where it was not.
    pub fn faults(&self, ends: Ends) -> u64
        ensures { result ≡ ⟦<MemoryWiring as Wiring>⟧.counts self.now ends.worker ends.replica }
    {
        match self.told.told(ends) {
            None => 0,
            Some(told) => told.faults,
        }
    }

    /// What the line between these ends had carried when it was taken back, where it told that.
    pub fn frames(&self, ends: Ends) -> Option<&[Frame]>
        ensures { MatchOption result
            (⟦<MemoryWiring as Wiring>⟧.carried self.now ends.worker ends.replica ≡ None)
            (λ frames. ⟦<MemoryWiring as Wiring>⟧.carried self.now ends.worker ends.replica ≡ Some frames.now) }
    {
        match self.told.told(ends) {
            None => None,
            Some(told) => {
                if told.faults < u64::MAX {
                    Some(told.kept.frames())
                } else {
                    None
                }
            }
        }
    }
}

impl Wiring for MemoryWiring {
    type L = MemoryLine;

    ghost counts = { λ w worker replica. faults_told (told_between w.told worker replica) };

    ghost carried = { λ w worker replica. frames_of (told_between w.told worker replica) };

    ghost asked = { λ w. Some (map ask_of w.asked.items) };

    fn line(&mut self, worker: u8, replica: u8, fail: &[u32]) -> Result<MemoryLine, AllocError>
        ensures fresh { IfOk result (λ line. IsNewLine
            line.ends line.faults (told_frames line.faults line.kept.frames) worker replica) }
        ensures told { self.new.told ≡ self.old.told }
        ensures asked { OnOk result (map ask_of self.new.asked.items
            ≡ map ask_of self.old.asked.items ++ ask_of_line worker replica fail.now ∷ []) }
        ensures unmade { OnErr result (self.new.asked.items ≡ self.old.asked.items) }

        // When it fails, and what room it has.
        ensures plan { IfOk result (λ line. line.plan ≡ record { fails = fail.now; calls = 0 }) }
        ensures kept { IfOk result (λ line. line.kept ≡ record {
          frames = [];
          spare = self.old.room;
          longest = self.old.longest;
        }) }
    {
        let plan = FaultPlan::new(wide(self.alloc, fail)?);
        let kept = KeptFrames::new(self.alloc, self.room, self.longest)?;
        let ends = Ends { worker, replica };
        let line = MemoryLine::new(self.alloc, ends, plan, kept)?;
        let fails = wide(self.alloc, fail)?;
        self.asked.push(LineAsk { ends, fails })?;
        Ok(line)
    }

    fn take_back(&mut self, line: MemoryLine) {
        let told = Told {
            faults: line.faults,
            kept: line.kept,
        };
        self.told.push(line.blank, line.ends, told);
    }
}

/// The same numbers, of the type that a plan has.
fn wide(alloc: Global, numbers: &[u32]) -> Result<Vec<u64>, AllocError>
    ensures { IfOk result (λ v. v.items ≡ numbers.now) }
{
    let mut wide = Vec::with_capacity(alloc, numbers.len())?;
    for number in numbers {
        wide.push(u64::from(*number))?;
    }
    Ok(wide)
}
