ghost use Rattle.std.specs.Prelude.{◌≡◌, ℕ, None, IfOk};
ghost use Rattle.outer_traits.specs.Lines.{IsNewLine, Records, TellsSame, told_between};
ghost use Rattle.fault_lines.specs.Planned.{count_told, new_plan};

use crate::plan_line::PlanLine;
use outer_traits::{Ends, TakenBack, Wiring};
use std::alloc::{AllocError, Global};

/// The wiring of lines that fail by plans. It tells how often each of them failed.
#[derive(Debug, Drop)]
pub struct PlanWiring {
    alloc: Global,
    /// The counts of the lines that were taken back.
    pub counts: TakenBack<u64>,
}

impl PlanWiring {
    /// No line was made yet.
    pub fn new(alloc: Global) -> Self
        ensures { (worker replica : ℕ) → ⟦<PlanWiring as Wiring>⟧.counts result worker replica ≡ 0 }
    {
        PlanWiring {
            alloc,
            counts: TakenBack::new(),
        }
    }

    /// How often the line between these ends had failed when it was taken back; 0 where it was not.
    pub fn faults(&self, ends: Ends) -> u64
        ensures { result ≡ ⟦<PlanWiring as Wiring>⟧.counts self.now ends.worker ends.replica }
    {
        match self.counts.told(ends) {
            None => 0,
            Some(count) => *count,
        }
    }
}

impl Wiring for PlanWiring {
    type L = PlanLine;

    ghost counts = { λ w worker replica. count_told (told_between w.counts worker replica) };

    ghost carried = { λ _ _ _. None };

    ghost asked = { λ _. None };

    fn line(&mut self, worker: u8, replica: u8, fail: &[u32]) -> Result<PlanLine, AllocError>
        ensures fresh { IfOk result (λ line. IsNewLine line.ends line.plan.count None worker replica) }
        ensures same { self.new ≡ self.old }

        // When it fails.
        ensures plan { IfOk result (λ line. line.plan ≡ new_plan fail.now) }
    {
        PlanLine::new(self.alloc, Ends { worker, replica }, fail)
    }

    fn take_back(&mut self, line: PlanLine) {
        let count = line.plan.faults();
        self.counts.push(line.blank, line.ends, count);
    }
}
