//! One step of the maintenance turn, on the whole volume or of folding, if its condition and its guard hold.

ghost use Rattle.std.specs.Prelude.{◌≡◌, OnOk, OnErr};
ghost use Rattle.volume_core.specs.Sound.{IsSound};
ghost use Rattle.volume_core.specs.State.{state_of};
ghost use Rattle.core_laws.specs.MaintTakes.{MakesMaint};

use crate::maint_guards::{
    has_page, is_awaiting_turn, is_awaiting_whole, may_enrol_whole, may_want,
};
use crate::maint_step::MaintStep;
use std::alloc::{AllocError, Global};
use volume_core::{Command, Reply, TicketNumber, World, free_turn_at};
use volume_maint::{
    LayerName, WholeOp, abandon, ack_whole, admit_maint, admit_whole, complete_whole, end_maint,
    enrol_maint, enrol_whole, fold_page, part, withdraw_maint, withdraw_whole,
};

/// Takes the step, or skips it.
pub(crate) fn take_maint_step(
    world: &mut World,
    alloc: Global,
    step: &MaintStep,
) -> Result<(), AllocError>
    requires { IsSound (state_of world.old) }
    ensures sound { IsSound (state_of world.new) }
    ensures ok { OnOk result (MakesMaint step.now (state_of world.old) (state_of world.new)) }
    ensures err { OnErr result (state_of world.new ≡ state_of world.old) }
{
    match step {
        MaintStep::Enrol { stream, command } => enrol(world, *stream, command)?,
        MaintStep::EnrolWhole { stream, op } => enrol_on_whole(world, alloc, *stream, op)?,
        MaintStep::AdmitWhole(ticket) => admit_on_whole(world, alloc, *ticket)?,
        MaintStep::Admit(ticket) => admit(world, *ticket),
        MaintStep::Withdraw(ticket) => withdraw(world, *ticket),
        MaintStep::End { ticket, reply } => end(world, *ticket, reply),
        MaintStep::Abandon(ticket) => give_back(world, *ticket),
        MaintStep::WithdrawWhole(ticket) => withdraw_on_whole(world, *ticket),
        MaintStep::Part { ticket, replica } => {
            let _ = part(world, *ticket, *replica);
        }
        MaintStep::AckWhole { ticket, replica } => {
            let _ = ack_whole(world, *ticket, *replica);
        }
        MaintStep::CompleteWhole(ticket) => {
            let _ = complete_whole(world, *ticket);
        }
        MaintStep::FoldPage {
            replica,
            parent,
            page,
        } => fold(world, *replica, parent, *page),
    }
    Ok(())
}

fn enrol(world: &mut World, stream: u8, command: &Command) -> Result<(), AllocError>
    requires { IsSound (state_of world.old) }
    ensures sound { IsSound (state_of world.new) }
    ensures ok { OnOk result (MakesMaint (MaintStep.Enrol stream command.now) (state_of world.old)
        (state_of world.new)) }
    ensures err { OnErr result (state_of world.new ≡ state_of world.old) }
{
    if may_want(world, stream, command) {
        enrol_maint(world, stream, command)?;
    }
    Ok(())
}

fn admit(world: &mut World, ticket: TicketNumber)
    requires { IsSound (state_of world.old) }
    ensures sound { IsSound (state_of world.new) }
    ensures ok { MakesMaint (MaintStep.Admit ticket) (state_of world.old) (state_of world.new) }
{
    if is_awaiting_turn(world, ticket) {
        admit_maint(world, ticket);
    }
}

fn withdraw(world: &mut World, ticket: TicketNumber)
    requires { IsSound (state_of world.old) }
    ensures sound { IsSound (state_of world.new) }
    ensures ok { MakesMaint (MaintStep.Withdraw ticket) (state_of world.old) (state_of world.new) }
{
    if is_awaiting_turn(world, ticket) {
        withdraw_maint(world, ticket);
    }
}

/// No command of the turn is answered otherwise than that it is done or refused, or that its rebuild was aborted.
fn end(world: &mut World, ticket: TicketNumber, reply: &Reply)
    requires { IsSound (state_of world.old) }
    ensures sound { IsSound (state_of world.new) }
    ensures ok { MakesMaint (MaintStep.End ticket reply.now) (state_of world.old) (state_of world.new) }
{
    match reply {
        Reply::Done => {
            let _ = end_maint(world, ticket, Reply::Done);
        }
        Reply::Refused(why) => {
            let _ = end_maint(world, ticket, Reply::Refused(*why));
        }
        Reply::Aborted(place) => {
            let _ = end_maint(world, ticket, Reply::Aborted(*place));
        }
        Reply::Read(_) | Reply::Status { .. } => {}
    }
}

fn give_back(world: &mut World, ticket: TicketNumber)
    requires { IsSound (state_of world.old) }
    ensures sound { IsSound (state_of world.new) }
    ensures ok { MakesMaint (MaintStep.Abandon ticket) (state_of world.old) (state_of world.new) }
{
    if free_turn_at(world, ticket) {
        abandon(world, ticket);
    }
}

/// A part of a purge that cannot go now is not enrolled.
fn enrol_on_whole(
    world: &mut World,
    alloc: Global,
    stream: u8,
    op: &WholeOp,
) -> Result<(), AllocError>
    requires { IsSound (state_of world.old) }
    ensures sound { IsSound (state_of world.new) }
    ensures ok { OnOk result (MakesMaint (MaintStep.EnrolWhole stream op.now) (state_of world.old)
        (state_of world.new)) }
    ensures err { OnErr result (state_of world.new ≡ state_of world.old) }
{
    if may_enrol_whole(world, stream, op) {
        enrol_whole(world, alloc, stream, op)?;
    }
    Ok(())
}

fn admit_on_whole(world: &mut World, alloc: Global, ticket: TicketNumber) -> Result<(), AllocError>
    requires { IsSound (state_of world.old) }
    ensures sound { IsSound (state_of world.new) }
    ensures ok { OnOk result (MakesMaint (MaintStep.AdmitWhole ticket) (state_of world.old)
        (state_of world.new)) }
    ensures err { OnErr result (state_of world.new ≡ state_of world.old) }
{
    if is_awaiting_whole(world, ticket) {
        admit_whole(world, alloc, ticket)?;
    }
    Ok(())
}

fn withdraw_on_whole(world: &mut World, ticket: TicketNumber)
    requires { IsSound (state_of world.old) }
    ensures sound { IsSound (state_of world.new) }
    ensures ok { MakesMaint (MaintStep.WithdrawWhole ticket) (state_of world.old) (state_of world.new) }
{
    if is_awaiting_whole(world, ticket) {
        withdraw_whole(world, ticket);
    }
}

fn fold(world: &mut World, replica: u8, parent: &LayerName, page: u32)
    requires { IsSound (state_of world.old) }
    ensures sound { IsSound (state_of world.new) }
    ensures ok { MakesMaint (MaintStep.FoldPage replica parent.now page) (state_of world.old)
        (state_of world.new) }
{
    if has_page(world, page) {
        let _ = fold_page(world, replica, parent, page);
    }
}
