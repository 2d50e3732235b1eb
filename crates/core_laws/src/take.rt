//! One step, if its condition and its guard hold.

ghost use Rattle.std.specs.Prelude.{◌≡◌, ℕ, ◌+◌, ◌<◌, length, IfOk, OnOk, OnErr};
ghost use Rattle.range_turns.specs.Order.{ticket_at};
ghost use Rattle.open_calls.specs.Calls.{open_at};
ghost use Rattle.volume_core.specs.Answers.{AreBlocksOfWrite, IsRoomier};
ghost use Rattle.volume_core.specs.Places.{IsWriteAt};
ghost use Rattle.volume_core.specs.Sound.{IsSound};
ghost use Rattle.volume_core.specs.State.{state_of};
ghost use Rattle.core_laws.specs.Takes.{Makes};

use crate::guards::{is_stream, is_waiting, may_answer, may_enrol};
use crate::step::Step;
use crate::take_backup::take_backup_step;
use crate::take_maint::take_maint_step;
use crate::take_rebuild::take_rebuild_step;
use std::alloc::{AllocError, Global};
use volume_core::{Blocks, Call, TicketNumber, World};

/// Takes the step, or skips it.
pub(crate) fn take_step(world: &mut World, alloc: Global, step: &Step) -> Result<(), AllocError>
    requires { IsSound (state_of world.old) }
    ensures sound { IsSound (state_of world.new) }
    ensures ok { OnOk result (Makes step.now (state_of world.old) (state_of world.new)) }
    ensures err { OnErr result (IsRoomier (state_of world.old) (state_of world.new)) }
{
    match step {
        Step::Enrol { stream, call } => enrol(world, alloc, *stream, call),
        Step::AnswerNow { stream, call } => answer_now(world, alloc, *stream, call),
        Step::Admit(ticket) => admit(world, alloc, *ticket),
        Step::Withdraw(ticket) => {
            withdraw(world, *ticket);
            Ok(())
        }
        Step::ApplyWrite { ticket, replica } => apply_write(world, alloc, *ticket, *replica),
        Step::ApplyRead { ticket, replica } => apply_read(world, alloc, *ticket, *replica),
        Step::Ack { ticket, replica } => {
            let _ = world.ack(*ticket, *replica);
            Ok(())
        }
        Step::Fault {
            stream,
            replica,
            count,
        } => {
            fault(world, *stream, *replica, *count);
            Ok(())
        }
        Step::Complete(ticket) => {
            let _ = world.complete(*ticket);
            Ok(())
        }
        Step::Maint(step) => take_maint_step(world, alloc, step),
        Step::Rebuild(step) => take_rebuild_step(world, alloc, step),
        Step::Backup(step) => take_backup_step(world, alloc, step),
    }
}

fn enrol(world: &mut World, alloc: Global, stream: u8, call: &Call) -> Result<(), AllocError>
    requires { IsSound (state_of world.old) }
    ensures sound { IsSound (state_of world.new) }
    ensures ok { OnOk result (Makes (Step.Enrol stream call.now) (state_of world.old) (state_of world.new)) }
    ensures err { OnErr result (state_of world.new ≡ state_of world.old) }
{
    if may_enrol(world, stream, call) {
        world.enrol(alloc, stream, call)?;
    }
    Ok(())
}

fn answer_now(world: &mut World, alloc: Global, stream: u8, call: &Call) -> Result<(), AllocError>
    requires { IsSound (state_of world.old) }
    ensures sound { IsSound (state_of world.new) }
    ensures ok { OnOk result (Makes (Step.AnswerNow stream call.now) (state_of world.old) (state_of world.new)) }
    ensures err { OnErr result (state_of world.new ≡ state_of world.old) }
{
    if may_answer(world, stream, call) {
        world.answer_now(alloc, stream, call)?;
    }
    Ok(())
}

fn admit(world: &mut World, alloc: Global, ticket: TicketNumber) -> Result<(), AllocError>
    requires { IsSound (state_of world.old) }
    ensures sound { IsSound (state_of world.new) }
    ensures ok { OnOk result (Makes (Step.Admit ticket) (state_of world.old) (state_of world.new)) }
    ensures err { OnErr result (IsRoomier (state_of world.old) (state_of world.new)) }
{
    if is_waiting(world, ticket) {
        world.admit(alloc, ticket)?;
    }
    Ok(())
}

fn withdraw(world: &mut World, ticket: TicketNumber)
    requires { IsSound (state_of world.old) }
    ensures sound { IsSound (state_of world.new) }
    ensures ok { Makes (Step.Withdraw ticket) (state_of world.old) (state_of world.new) }
{
    if is_waiting(world, ticket) {
        world.withdraw(ticket);
    }
}

/// The blocks are made here, as a worker makes them.
fn apply_write(
    world: &mut World,
    alloc: Global,
    ticket: TicketNumber,
    replica: u8,
) -> Result<(), AllocError>
    requires { IsSound (state_of world.old) }
    ensures sound { IsSound (state_of world.new) }
    ensures ok { OnOk result (Makes (Step.ApplyWrite ticket replica) (state_of world.old) (state_of world.new)) }
    ensures err { OnErr result (state_of world.new ≡ state_of world.old) }
{
    let Some(i) = world.write_at(ticket) else {
        return Ok(());
    };
    let mut blocks = blocks_at(world, alloc, i)?;
    let _ = world.apply_write(ticket, replica, &mut blocks);
    Ok(())
}

/// The blocks of the write at i.
fn blocks_at(world: &World, alloc: Global, i: usize) -> Result<Blocks, AllocError>
    requires sound { IsSound (state_of world.now) }
    requires is { (t : ℕ) × IsWriteAt (state_of world.now) t i }
    ensures { IfOk result (AreBlocksOfWrite (ticket_at world.now.turns.tickets i) (open_at world.now.calls.items i)) }
{
    let range = world.turns.ticket(i).range;
    let call = &world.calls[i];
    let mut whole = Vec::from_slice(alloc, call.front.as_slice())?;
    whole.extend_from_slice(call.bytes.as_slice())?;
    whole.extend_from_slice(call.back.as_slice())?;
    let mut blocks = Blocks::with_count(alloc, (range.end - range.first) as usize)?;
    blocks.fill(&whole);
    Ok(blocks)
}

/// The bytes of a read are given to nobody here: they stay in its call.
fn apply_read(
    world: &mut World,
    alloc: Global,
    ticket: TicketNumber,
    replica: u8,
) -> Result<(), AllocError>
    requires { IsSound (state_of world.old) }
    ensures sound { IsSound (state_of world.new) }
    ensures ok { OnOk result (Makes (Step.ApplyRead ticket replica) (state_of world.old) (state_of world.new)) }
    ensures err { OnErr result (state_of world.new ≡ state_of world.old) }
{
    let Some(place) = world.turns.place(ticket) else {
        return Ok(());
    };
    let mut into = vec![in alloc; 0; world.calls[place].length as usize]?;
    let _ = world.apply_read(ticket, replica, &mut into);
    Ok(())
}

fn fault(world: &mut World, stream: u8, replica: u8, count: u64)
    requires { IsSound (state_of world.old) }
    ensures sound { IsSound (state_of world.new) }
    ensures ok { Makes (Step.Fault stream replica count) (state_of world.old) (state_of world.new) }
{
    if is_stream(world, stream) {
        let _ = world.fault(stream, replica, count);
    }
}
