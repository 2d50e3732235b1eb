ghost use Rattle.std.specs.Prelude.{◌≡◌, ◌↔◌, ◌+◌, IfOk, IsTrue, if◌then◌else◌};
ghost use Rattle.fault_lines.specs.Planned.{AreSmall, FollowsCarries, IsNext, new_plan, rising_above};

use std::alloc::{AllocError, Global};
use std::marker::Model;

/// Which carries of a line fail, counted from 1, failed ones among them.
#[derive(Debug, Drop)]
pub struct CarryPlan {
    fails: Vec<u32>,
    carries: u64,
    /// How many of the planned numbers have come; the next of them stands at this index.
    met: usize,
}

impl Model for CarryPlan {
    ghost use Rattle.fault_lines.specs.Planned.{Planned, IsMet};

    ghost Value = { Planned };

    ghost view = { λ p. record { fails = p.fails.items; carries = p.carries; count = p.met } };

    ghost invariant = { λ p. IsMet p.fails.items p.carries p.met };
}

impl CarryPlan {
    /// The carries with these numbers fail. A number that is not above those before it is left out.
    pub fn new(alloc: Global, fails: &[u32]) -> Result<Self, AllocError>
        ensures { IfOk result (λ plan. plan ≡ new_plan fails.now) }
    {
        Ok(CarryPlan {
            fails: rising(alloc, fails)?,
            carries: 0,
            met: 0,
        })
    }

    /// Counts one carry more, and says whether it is to fail. It looks at the next planned number alone.
    pub fn next_fails(&mut self) -> bool
        ensures plan { FollowsCarries self.old self.new (IsTrue result) }
        ensures count { self.new.count ≡ (if result then self.old.count + 1 else self.old.count) }
    {
        let carry = self.carries.saturating_add(1);
        let fails = self.is_next(carry);
        self.carries = carry;
        if fails {
            self.met += 1;
        }
        fails
    }

    /// Whether the next planned number is that of the next carry.
    fn is_next(&self, carry: u64) -> bool
        ensures { IsTrue result ↔ IsNext self.now.fails self.now.count carry }
    {
        match self.fails.get(self.met) {
            Some(number) => u64::from(*number) == carry,
            None => false,
        }
    }

    /// How many carries have failed.
    pub fn faults(&self) -> u64
        ensures { result ≡ self.now.count }
    {
        self.met as u64
    }
}

/// A copy of those numbers that are above each before them.
fn rising(alloc: Global, numbers: &[u32]) -> Result<Vec<u32>, AllocError>
    ensures copy { IfOk result (λ copy. copy.items ≡ rising_above 0 numbers.now) }
    ensures small { IfOk result (λ copy. AreSmall copy.items) }
{
    let mut copy = Vec::with_capacity(alloc, numbers.len())?;
    let mut last = 0;
    for number in numbers {
        if last < *number {
            copy.push(*number)?;
            last = *number;
        }
    }
    Ok(copy)
}
