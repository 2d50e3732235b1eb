//! Whether a step may be asked for.

ghost use Rattle.std.specs.Prelude.{◌≡◌, ℕ, ◌<◌, length, true, false};
ghost use Rattle.open_calls.specs.Maint.{HasNoCommand};
ghost use Rattle.step_answers.specs.Asked.{IsOnRange, IsNow, AsksReplica};
ghost use Rattle.volume_model.specs.Commands.{NamesReplica};
ghost use Rattle.volume_core.specs.State.{state_of};
ghost use Rattle.core_laws.specs.Guards.{IsFreeStream, MayEnrol, MayAnswer, IsWaiting, IsStream};

use vol_units::LONGEST_CALL;
use volume_core::{Call, Command, Kind, TicketNumber, World, is_idle};

/// Whether the stream may enrol the call.
pub(crate) fn may_enrol(world: &World, stream: u8, call: &Call) -> bool
    ensures yes { result ≡ true → MayEnrol (state_of world.now) stream call.now }
    ensures no { result ≡ false → MayEnrol (state_of world.now) stream call.now → ⊥ }
{
    is_free(world, stream) && is_on_range(call)
}

/// Whether the stream may have the call answered at once.
pub(crate) fn may_answer(world: &World, stream: u8, call: &Call) -> bool
    ensures yes { result ≡ true → MayAnswer (state_of world.now) stream call.now }
    ensures no { result ≡ false → MayAnswer (state_of world.now) stream call.now → ⊥ }
{
    is_free(world, stream) && is_now(call) && asks_replica(world, call)
}

/// Whether the ticket is one of a call that waits.
pub(crate) fn is_waiting(world: &World, ticket: TicketNumber) -> bool
    ensures yes { result ≡ true → IsWaiting (state_of world.now) ticket }
    ensures no { result ≡ false → IsWaiting (state_of world.now) ticket → ⊥ }
{
    let Some(place) = world.turns.place(ticket) else {
        return false;
    };
    let found = world.turns.ticket(place);
    !found.started && found.kind != Kind::Whole
}

/// Whether there is the stream, and it has no call open and no command of the maintenance turn.
pub(crate) fn is_free(world: &World, stream: u8) -> bool
    ensures yes { result ≡ true → IsFreeStream (state_of world.now) stream }
    ensures no { result ≡ false → IsFreeStream (state_of world.now) stream → ⊥ }
{
    is_stream(world, stream) && is_idle(world, stream) && has_no_command(world, stream)
}

/// Whether the stream is one of the World's.
pub(crate) fn is_stream(world: &World, stream: u8) -> bool
    ensures yes { result ≡ true → IsStream (state_of world.now) stream }
    ensures no { result ≡ false → IsStream (state_of world.now) stream → ⊥ }
{
    (stream as usize) < world.indices.len()
}

pub(crate) fn has_no_command(world: &World, stream: u8) -> bool
    ensures yes { result ≡ true → HasNoCommand stream world.now.commands.items }
    ensures no { result ≡ false → HasNoCommand stream world.now.commands.items → ⊥ }
{
    for k in 0..world.commands.len() {
        if world.commands[k].stream == stream {
            return false;
        }
    }
    true
}

fn is_on_range(call: &Call) -> bool
    ensures yes { result ≡ true → IsOnRange call.now }
    ensures no { result ≡ false → IsOnRange call.now → ⊥ }
{
    match call {
        Call::Read { length, .. } => *length <= LONGEST_CALL,
        Call::Write { bytes, .. } => bytes.len() <= LONGEST_CALL as usize,
        Call::Ping | Call::Other(_) | Call::Command(_) => false,
    }
}

fn is_now(call: &Call) -> bool
    ensures yes { result ≡ true → IsNow call.now }
    ensures no { result ≡ false → IsNow call.now → ⊥ }
{
    match call {
        Call::Read { length, .. } => *length > LONGEST_CALL,
        Call::Write { .. } => false,
        Call::Ping | Call::Other(_) => true,
        Call::Command(command) => is_command_now(command),
    }
}

/// Whether the call is of no replica, or of one that is there.
fn asks_replica(world: &World, call: &Call) -> bool
    ensures yes { result ≡ true → AsksReplica (length world.now.nodes.items) call.now }
    ensures no { result ≡ false → AsksReplica (length world.now.nodes.items) call.now → ⊥ }
{
    match call {
        Call::Command(command) => names_replica(world, command),
        Call::Read { .. } | Call::Write { .. } | Call::Ping | Call::Other(_) => true,
    }
}

/// Whether the command is of no replica, or of one that is there.
pub(crate) fn names_replica(world: &World, command: &Command) -> bool
    ensures yes { result ≡ true → NamesReplica (length world.now.nodes.items) command.now }
    ensures no { result ≡ false → NamesReplica (length world.now.nodes.items) command.now → ⊥ }
{
    match command {
        Command::Fail(replica) | Command::Add(replica) => (*replica as usize) < world.nodes.len(),
        Command::Snapshot(_)
        | Command::Remove(_)
        | Command::Revert(_)
        | Command::Purge
        | Command::Status
        | Command::Backup { .. } => true,
    }
}

fn is_command_now(command: &Command) -> bool
    ensures yes { result ≡ true → IsNow (Call.Command command.now) }
    ensures no { result ≡ false → IsNow (Call.Command command.now) → ⊥ }
{
    match command {
        Command::Fail(_) | Command::Status => true,
        Command::Snapshot(_)
        | Command::Remove(_)
        | Command::Revert(_)
        | Command::Purge
        | Command::Add(_)
        | Command::Backup { .. } => false,
    }
}
