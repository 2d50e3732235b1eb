ghost use Rattle.std.specs.Prelude.{◌≡◌, ℕ, List, [], ◌∷◌, Option, OnErr, OnOk, IfOk, map};
ghost use Rattle.outer_traits.specs.Lines.{AreLinesOf, IsNewLine, Records, RecordsOf, TellsMore, TellsSame};
ghost use Rattle.outer_traits.specs.Lines.{Asked, ask_of_line};

use crate::line::Line;
use std::alloc::AllocError;

/// Where the lines of a run come from, and where they go back to when it ends.
pub trait Wiring {
    type L: Line + Send + Drop;

    // By worker and replica, how often the line had failed that was taken back last; 0 where none was.
    ghost counts: { Self → ℕ → ℕ → ℕ };

    // By worker and replica, what that line had carried, where it told it.
    ghost carried: { Self → ℕ → ℕ → Option (List (List ℕ)) };

    // The lines that were asked for, each with its plan, in order, where it tells them.
    ghost asked: { Self → Option (List Asked) };

    /// The worker's line to a replica. A line that fails by a plan fails at the carries with these numbers, from 1.
    fn line(&mut self, worker: u8, replica: u8, fail: &[u32]) -> Result<Self::L, AllocError>
        ensures fresh { IfOk result (λ line. IsNewLine
            (Self.L.ends line) (Self.L.count line) (Self.L.carried line) worker replica) }
        ensures counts { TellsSame (counts self.old) (counts self.new) }
        ensures carried { TellsSame (carried self.old) (carried self.new) }
        ensures asked { OnOk result (TellsMore (asked self.old) (asked self.new)
            (ask_of_line worker replica fail.now ∷ [])) }
        ensures unmade { OnErr result (TellsMore (asked self.old) (asked self.new) []) };

    /// Takes a line back, and notes what it tells. It takes no memory.
    fn take_back(&mut self, line: Self::L)
        ensures counts { Records (counts self.old) (counts self.new) (Self.L.ends line) (Self.L.count line) }
        ensures carried { Records (carried self.old) (carried self.new)
            (Self.L.ends line) (Self.L.carried line) }
        ensures asked { asked self.new ≡ asked self.old };
}

/// Takes the lines of one worker back, which stand in the order of their replicas.
pub fn take_back_all<W: Wiring>(wiring: &mut W, lines: Vec<W::L>)
    ensures counts { (worker : ℕ) → AreLinesOf worker 0 (map W.L.ends lines.items) →
        RecordsOf (W.counts wiring.old) (W.counts wiring.new) worker (map W.L.count lines.items) }
    ensures carried { (worker : ℕ) → AreLinesOf worker 0 (map W.L.ends lines.items) →
        RecordsOf (W.carried wiring.old) (W.carried wiring.new) worker (map W.L.carried lines.items) }
    ensures asked { W.asked wiring.new ≡ W.asked wiring.old }
{
    for line in lines {
        wiring.take_back(line);
    }
}
