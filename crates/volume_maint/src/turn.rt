//! The maintenance turn.

ghost use Rattle.std.specs.Prelude.{◌≡◌, ℕ, ◌<◌, length, IfOk, IfErr, OnOk, OnErr};
ghost use Rattle.range_turns.specs.Order.{IsFresh};
ghost use Rattle.volume_model.specs.Commands.{NamesReplica};
ghost use Rattle.open_calls.specs.Clients.{IsIdle};
ghost use Rattle.open_calls.specs.Maint.{HasNoCommand, IsMaint};
ghost use Rattle.volume_core.specs.State.{state_of};
ghost use Rattle.volume_core.specs.Sound.{IsSound};
ghost use Rattle.volume_core.specs.Streams.{MayGo};
ghost use Rattle.volume_core.specs.Turn.{without_command, IsFreeTurn, ForAsker};
ghost use Rattle.volume_maint.specs.Steps.{maint_enrolled, turn_abandoned};
ghost use Rattle.volume_maint.specs.Places.{AwaitsTurn};
ghost use Rattle.volume_maint.specs.Answers.{TurnsTo, EndsTurn, AgainstEndTurn};

use crate::places::waiting_command_at;
use crate::refusal::{is_ready_for, may_end, why_not};
use open_calls::MaintCall;
use range_turns::{BlockRange, Kind, MayStart, TicketNumber};
use std::alloc::AllocError;
use volume_core::{Call, Command, NotThis, Reply, World, end_first, free_turn_at, take_command};

/// Puts a command of a stream that has no call open behind those that have the maintenance turn or wait for it. The
/// place of its answer is made.
pub fn enrol_maint(
    world: &mut World,
    stream: u8,
    command: &Command,
) -> Result<TicketNumber, AllocError>
    requires sound { IsSound (state_of world.old) }
    requires stream { stream < length world.old.indices.items }
    requires idle { IsIdle stream world.old.calls.items }
    requires free { HasNoCommand stream world.old.commands.items }
    requires wants { IsMaint command.now }
    requires there { NamesReplica (length world.old.nodes.items) command.now }
    ensures sound { IsSound (state_of world.new) }
    ensures fresh { IfOk result (IsFresh world.old.maint.tickets) }
    ensures ok { IfOk result (λ number. state_of world.new ≡ maint_enrolled (state_of world.old) number
        (record { stream = stream; saw = length world.old.journal.entries; command = command.now })) }
    ensures err { OnErr result (state_of world.new ≡ state_of world.old) }
    ensures may { MayGo stream (state_of world.old) (state_of world.new) }
{
    world.commands.reserve(1)?;
    world.maint.reserve(1)?;
    world.journal.reserve(world.journal.spare() + 1)?;
    let all = BlockRange { first: 0, end: 0 };
    let number = world.maint.enrol(all, Kind::Whole);
    let call = MaintCall {
        stream,
        saw: world.journal.len(),
        command: *command,
    };
    world.commands.push(call).unwrap();
    Ok(number)
}

/// Gives the turn to a command that waits for it, where none is before it. It takes no memory.
pub fn admit_maint(world: &mut World, t: TicketNumber) -> MayStart
    requires sound { IsSound (state_of world.old) }
    requires waits { (k : ℕ) × AwaitsTurn (state_of world.old) t k }
    ensures sound { IsSound (state_of world.new) }
    ensures turns { TurnsTo (state_of world.old) t result (state_of world.new) }
    ensures may { ForAsker (state_of world.old) t (λ stream. MayGo stream (state_of world.old) (state_of world.new)) }
{
    let k = waiting_command_at(world, t);
    if k > 0 {
        return MayStart::After(world.maint.ticket(0).number);
    }
    world.maint.start_at(0);
    MayStart::Yes
}

/// Takes back a command that waits for the turn. It takes no memory.
pub fn withdraw_maint(world: &mut World, t: TicketNumber)
    requires sound { IsSound (state_of world.old) }
    requires waits { (k : ℕ) × AwaitsTurn (state_of world.old) t k }
    ensures sound { IsSound (state_of world.new) }
    ensures gone { (k : ℕ) × AwaitsTurn (state_of world.old) t k
        × (state_of world.new ≡ without_command (state_of world.old) k) }
    ensures may { ForAsker (state_of world.old) t (λ stream. MayGo stream (state_of world.old) (state_of world.new)) }
{
    let k = waiting_command_at(world, t);
    take_command(world, k);
}

/// Ends the command that has the turn with that reply, where it may be answered so, and gives the place of the answer.
/// Else it tells what stands against it: the ticket, where it has not the turn or is never answered so; the modes; or
/// what the reply says of the volume. It takes no memory.
pub fn end_maint(world: &mut World, t: TicketNumber, reply: Reply) -> Result<u64, NotThis>
    requires sound { IsSound (state_of world.old) }
    ensures sound { IsSound (state_of world.new) }
    ensures place { IfOk result (λ place. place ≡ length world.old.journal.entries) }
    ensures ok { OnOk result (EndsTurn (state_of world.old) t reply (state_of world.new)) }
    ensures why { IfErr result (AgainstEndTurn (state_of world.old) t reply) }
    ensures err { OnErr result (state_of world.new ≡ state_of world.old) }
    ensures may { ForAsker (state_of world.old) t (λ stream. MayGo stream (state_of world.old) (state_of world.new)) }
{
    if !free_turn_at(world, t) || !is_ready_for(world, &reply) {
        return Err(NotThis::Ticket);
    }
    if !may_end(world, &reply) {
        return Err(why_not(world, &reply));
    }
    Ok(end_first(world, reply))
}

/// Gives the turn back, once memory ran out: without an answer, but where a rebuild of its command was begun. One that is
/// open is given up, and its command answered so; one that was aborted is answered. That its stream gave a command up is
/// kept, but for the last: parts of it may be done already, in marks behind which no answer comes. It takes no memory.
pub fn abandon(world: &mut World, t: TicketNumber)
    requires sound { IsSound (state_of world.old) }
    requires turn { IsFreeTurn (state_of world.old) t }
    ensures sound { IsSound (state_of world.new) }
    ensures gone { state_of world.new ≡ turn_abandoned (state_of world.old) }
    ensures may { ForAsker (state_of world.old) t (λ stream. MayGo stream (state_of world.old) (state_of world.new)) }
{
    if let Some(rebuild) = &world.rebuild {
        let target = rebuild.target;
        let stream = world.commands[0].stream;
        let place = world.give_up(stream, target);
        end_first(world, Reply::Aborted(place));
    } else if let Some(ended) = world.ended {
        end_first(world, Reply::Aborted(ended.place));
    } else {
        let stream = world.commands[0].stream;
        world.gave_up[stream as usize] = true;
        take_command(world, 0);
    }
}
