//! Where the call of a ticket stands.

ghost use Rattle.std.specs.Prelude.{ℕ, IfSome, MatchOption};
ghost use Rattle.volume_core.specs.State.{state_of};
ghost use Rattle.volume_core.specs.Sound.{IsSound, IsCalm};
ghost use Rattle.volume_core.specs.Places.{IsWriteAt, IsReadAt, IsCallAt, IsWaitingAt};

use crate::world::World;
use range_turns::{Kind, TicketNumber};

impl World {
    /// Where the started write of that ticket stands, if it is one. No call on the whole volume is started then.
    pub fn write_at(&self, t: TicketNumber) -> Option<usize>
        requires sound { IsSound (state_of self.now) }
        ensures calm { IfSome result (λ _. IsCalm (state_of self.now)) }
        ensures place { MatchOption result
            ((i : ℕ) → IsWriteAt (state_of self.now) t i → ⊥) (IsWriteAt (state_of self.now) t) }
    {
        let i = self.turns.place(t)?;
        let ticket = self.turns.ticket(i);
        if ticket.started && ticket.kind == Kind::Write {
            Some(i)
        } else {
            None
        }
    }

    /// Where the started read of that ticket stands, if it is one. No call on the whole volume is started then.
    pub(crate) fn read_at(&self, t: TicketNumber) -> Option<usize>
        requires sound { IsSound (state_of self.now) }
        ensures calm { IfSome result (λ _. IsCalm (state_of self.now)) }
        ensures place { MatchOption result
            ((i : ℕ) → IsReadAt (state_of self.now) t i → ⊥) (IsReadAt (state_of self.now) t) }
    {
        let i = self.turns.place(t)?;
        let ticket = self.turns.ticket(i);
        if ticket.started && ticket.kind == Kind::Read {
            Some(i)
        } else {
            None
        }
    }

    /// Where the started read or write of that ticket stands, if it is one. No call on the whole volume is started then.
    pub(crate) fn started_at(&self, t: TicketNumber) -> Option<usize>
        requires sound { IsSound (state_of self.now) }
        ensures calm { IfSome result (λ _. IsCalm (state_of self.now)) }
        ensures place { MatchOption result
            ((i : ℕ) → IsCallAt (state_of self.now) t i → ⊥) (IsCallAt (state_of self.now) t) }
    {
        let i = self.turns.place(t)?;
        let ticket = self.turns.ticket(i);
        if ticket.started && ticket.kind != Kind::Whole {
            Some(i)
        } else {
            None
        }
    }

    /// Where a read or a write stands that has not started.
    pub(crate) fn waiting_at(&self, t: TicketNumber) -> usize
        requires { (i : ℕ) × IsWaitingAt (state_of self.now) t i }
        ensures { IsWaitingAt (state_of self.now) t result }
    {
        self.turns.place(t).unwrap()
    }
}
