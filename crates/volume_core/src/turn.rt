//! The command that has the maintenance turn, and its end.

ghost use Rattle.std.specs.Prelude.{◌≡◌, ◌<◌, ◌≤◌, length, true, false};
ghost use Rattle.open_calls.specs.Clients.{IsIdle};
ghost use Rattle.open_calls.specs.Maint.{command_at};
ghost use Rattle.volume_core.specs.State.{state_of, index_at};
ghost use Rattle.volume_core.specs.Sound.{IsSound};
ghost use Rattle.volume_core.specs.Turn.{IsFreeTurn, turn_ended, without_command};

use crate::world::World;
use journal_book::{Call, Reply};
use open_calls::MaintCall;
use range_turns::TicketNumber;

/// Whether the command of that ticket has the turn, and nothing enrolled for the whole volume.
pub fn free_turn_at(world: &World, t: TicketNumber) -> bool
    requires { IsSound (state_of world.now) }
    ensures free { result ≡ true → IsFreeTurn (state_of world.now) t }
    ensures not { result ≡ false → IsFreeTurn (state_of world.now) t → ⊥ }
{
    match world.maint.place(t) {
        Some(0) => world.maint.ticket(0).started && is_idle(world, world.commands[0].stream),
        _ => false,
    }
}

/// Whether no ticket is the stream's.
pub fn is_idle(world: &World, stream: u8) -> bool
    ensures idle { result ≡ true → IsIdle stream world.now.calls.items }
    ensures not { result ≡ false → IsIdle stream world.now.calls.items → ⊥ }
{
    for i in 0..world.calls.len() {
        if world.calls[i].stream == stream {
            return false;
        }
    }
    true
}

/// Ends the first command with that reply, in a place that was made before, and gives the place of its answer. It is no
/// step, but a part of those of volume_maint and volume_rebuild that end a command, and for them alone: whether it may be
/// answered so, they know. It takes no memory.
pub fn end_first(world: &mut World, reply: Reply) -> u64
    requires ticket { 0 < length world.old.maint.tickets }
    requires command { 0 < length world.old.commands.items }
    requires stream { (command_at world.old.commands.items 0).stream < length world.old.indices.items }
    requires few { index_at world.old.indices.items (command_at world.old.commands.items 0).stream
        ≤ length world.old.journal.entries }
    requires spare { 0 < world.old.journal.spare }
    ensures place { result ≡ length world.old.journal.entries }
    ensures state { state_of world.new ≡ turn_ended (state_of world.old) reply }
{
    let call = take_command(world, 0);
    world.ended = None;
    world.push_answer(call.stream, call.saw, Call::Command(call.command), reply)
}

/// Takes the command at k out: a part of `end_first`, and of the steps of volume_maint that take one back or end one.
pub fn take_command(world: &mut World, k: usize) -> MaintCall
    requires ticket { k < length world.old.maint.tickets }
    requires command { k < length world.old.commands.items }
    ensures value { result ≡ command_at world.old.commands.items k }
    ensures gone { state_of world.new ≡ without_command (state_of world.old) k }
{
    world.maint.end_at(k);
    world.commands.remove(k)
}
