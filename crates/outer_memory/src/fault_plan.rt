ghost use Rattle.std.specs.Prelude.{◌≡◌, [], IsTrue};
ghost use Rattle.outer_memory.specs.Plan.{Plan, FollowsPlan};

use std::alloc::Global;
use std::marker::Model;

/// Which calls of an object fail, counted from 1.
#[derive(Debug, Drop)]
pub struct FaultPlan {
    fails: Vec<u64>,
    calls: u64,
}

impl Model for FaultPlan {
    ghost Value = { Plan };

    ghost view = { λ p. record { fails = p.fails.items; calls = p.calls } };
}

impl FaultPlan {
    /// The calls with these numbers fail.
    pub fn new(fails: Vec<u64>) -> Self
        ensures { result ≡ record { fails = fails.items; calls = 0 } }
    {
        FaultPlan { fails, calls: 0 }
    }

    /// No call fails.
    pub fn none(alloc: Global) -> Self
        ensures { result ≡ record { fails = []; calls = 0 } }
    {
        FaultPlan::new(Vec::new(alloc))
    }

    /// Counts one call more, and says whether it is to fail.
    pub fn next_fails(&mut self) -> bool
        ensures { FollowsPlan self.old self.new (IsTrue result) }
    {
        self.calls = self.calls.saturating_add(1);
        self.fails.contains(&self.calls)
    }
}
