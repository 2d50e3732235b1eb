//! Whether a step of the maintenance turn, on the whole volume or of folding may be asked for.

ghost use Rattle.std.specs.Prelude.{◌≡◌, true, false};
ghost use Rattle.open_calls.specs.Maint.{IsMaint, HasTurn};
ghost use Rattle.volume_core.specs.Sound.{IsSound};
ghost use Rattle.volume_core.specs.State.{state_of};
ghost use Rattle.volume_maint.specs.Answers.{MayAsk};
ghost use Rattle.core_laws.specs.MaintGuards.{MayWant, IsAwaitingTurn, MayEnrolWhole, IsAwaitingWhole, HasPage};

use crate::guards::{has_no_command, is_free, is_stream, names_replica};
use vol_units::PAGE_BYTES;
use volume_core::{Command, Kind, TicketNumber, World, is_idle};
use volume_maint::WholeOp;

/// Whether the stream may enrol the command.
pub(crate) fn may_want(world: &World, stream: u8, command: &Command) -> bool
    ensures yes { result ≡ true → MayWant (state_of world.now) stream command.now }
    ensures no { result ≡ false → MayWant (state_of world.now) stream command.now → ⊥ }
{
    is_free(world, stream) && is_maint(command) && names_replica(world, command)
}

fn is_maint(command: &Command) -> bool
    ensures yes { result ≡ true → IsMaint command.now }
    ensures no { result ≡ false → IsMaint command.now → ⊥ }
{
    match command {
        Command::Remove(_)
        | Command::Revert(_)
        | Command::Purge
        | Command::Add(_)
        | Command::Backup { .. } => true,
        Command::Snapshot(_) | Command::Status | Command::Fail(_) => false,
    }
}

/// Whether the ticket is one of a command that waits for the turn.
pub(crate) fn is_awaiting_turn(world: &World, ticket: TicketNumber) -> bool
    ensures yes { result ≡ true → IsAwaitingTurn (state_of world.now) ticket }
    ensures no { result ≡ false → IsAwaitingTurn (state_of world.now) ticket → ⊥ }
{
    match world.maint.place(ticket) {
        Some(place) => !world.maint.ticket(place).started,
        None => false,
    }
}

/// Whether the stream may enrol the operation.
pub(crate) fn may_enrol_whole(world: &World, stream: u8, op: &WholeOp) -> bool
    requires { IsSound (state_of world.now) }
    ensures yes { result ≡ true → MayEnrolWhole (state_of world.now) stream op.now }
    ensures no { result ≡ false → MayEnrolWhole (state_of world.now) stream op.now → ⊥ }
{
    is_stream(world, stream) && is_idle(world, stream) && may_ask(world, stream, op)
}

fn may_ask(world: &World, stream: u8, op: &WholeOp) -> bool
    requires { IsSound (state_of world.now) }
    ensures yes { result ≡ true → MayAsk (state_of world.now) stream op.now }
    ensures no { result ≡ false → MayAsk (state_of world.now) stream op.now → ⊥ }
{
    match op {
        WholeOp::Snapshot(name) => {
            // That it is a user's name, a proof learns here.
            let _name = name.as_bytes();
            has_no_command(world, stream)
        }
        WholeOp::Remove(_) | WholeOp::Revert(_) | WholeOp::Purge(_) | WholeOp::Barrier(_) =>
            has_turn(world, stream, &op.command()),
    }
}

/// Whether that stream's command has the turn.
fn has_turn(world: &World, stream: u8, command: &Command) -> bool
    requires { IsSound (state_of world.now) }
    ensures yes { result ≡ true → HasTurn world.now.maint.tickets world.now.commands.items stream command.now }
    ensures no { result ≡ false → HasTurn world.now.maint.tickets world.now.commands.items stream command.now → ⊥ }
{
    if world.commands.is_empty() {
        return false;
    }
    let first = world.commands[0];
    world.maint.ticket(0).started && first.stream == stream && first.command == *command
}

/// Whether the ticket is one of an operation that waits for its start.
pub(crate) fn is_awaiting_whole(world: &World, ticket: TicketNumber) -> bool
    ensures yes { result ≡ true → IsAwaitingWhole (state_of world.now) ticket }
    ensures no { result ≡ false → IsAwaitingWhole (state_of world.now) ticket → ⊥ }
{
    let Some(place) = world.turns.place(ticket) else {
        return false;
    };
    let found = world.turns.ticket(place);
    !found.started && found.kind == Kind::Whole
}

/// Whether the page begins within the volume.
pub(crate) fn has_page(world: &World, page: u32) -> bool
    ensures yes { result ≡ true → HasPage (state_of world.now) page }
    ensures no { result ≡ false → HasPage (state_of world.now) page → ⊥ }
{
    u64::from(page) * PAGE_BYTES < world.size.bytes()
}
