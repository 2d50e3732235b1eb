//! Where a command of the maintenance turn stands, and where a ticket for the whole volume does.

ghost use Rattle.std.specs.Prelude.{◌≢◌, ℕ, MatchOption};
ghost use Rattle.open_calls.specs.Maint.{command_at};
ghost use Rattle.volume_core.specs.State.{state_of};
ghost use Rattle.volume_maint.specs.Places.{AwaitsTurn, AwaitsWhole, IsWholeOn};

use range_turns::TicketNumber;
use volume_core::World;

/// Where a command waits for the turn.
pub(crate) fn waiting_command_at(world: &World, t: TicketNumber) -> usize
    requires { (k : ℕ) × AwaitsTurn (state_of world.now) t k }
    ensures { AwaitsTurn (state_of world.now) t result }
{
    world.maint.place(t).unwrap()
}

/// Where an operation on the whole volume waits for its start.
pub(crate) fn waiting_whole_at(world: &World, t: TicketNumber) -> usize
    requires { (i : ℕ) × AwaitsWhole (state_of world.now) t i }
    ensures { AwaitsWhole (state_of world.now) t result }
{
    world.turns.place(t).unwrap()
}
