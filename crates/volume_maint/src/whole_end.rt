//! An operation on the whole volume is acknowledged, and ends.

ghost use Rattle.std.specs.Prelude.{◌≡◌, ℕ, ◌<◌, ◌≤◌, length, true, false, None, Some};
ghost use Rattle.std.specs.Prelude.{IfOk, IfErr, IfSome, OnOk, OnErr, MatchOption};
ghost use Rattle.volume_model.specs.declared.entry.Entry.TheVariants as entry;
ghost use Rattle.volume_model.specs.declared.mark.Mark.TheVariants as mark;
ghost use Rattle.volume_model.specs.Modes.{mode_of, HasSource, HasNoSource};
ghost use Rattle.open_calls.specs.Calls.{open_at};
ghost use Rattle.step_answers.specs.Parts.{part_at, is_pending_at};
ghost use Rattle.open_calls.specs.declared.whole.Whole.{Whole};
ghost use Rattle.open_calls.specs.Maint.{IsAskedBy};
ghost use Rattle.volume_core.specs.State.{state_of, modes_in, index_at};
ghost use Rattle.volume_core.specs.Steps.{with_entry, without_call};
ghost use Rattle.volume_core.specs.Sound.{IsSound};
ghost use Rattle.volume_core.specs.Streams.{MayGo};
ghost use Rattle.volume_maint.specs.Steps.{turn_over, whole_acked, whole_ended};
ghost use Rattle.volume_maint.specs.Places.{ForCaller, IsWholeOn};
ghost use Rattle.volume_maint.specs.Answers.{AcksPart, AgainstAckPart};
ghost use Rattle.volume_maint.specs.Answers.{EndsWhole, AgainstEndWhole, whole_done, whole_lost};

use crate::barrier::pass_barrier;
use open_calls::{FoldOrDrop, Part, WholeOp};
use range_turns::TicketNumber;
use volume_core::{Call, Entry, NotThis, Refusal, Reply, World, take_command};
use volume_model::Mark;

/// A replica, which took its part of the started operation, has acknowledged it. It takes no memory.
pub fn ack_whole(world: &mut World, t: TicketNumber, replica: u8) -> Result<(), NotThis>
    requires sound { IsSound (state_of world.old) }
    ensures sound { IsSound (state_of world.new) }
    ensures ok { OnOk result (AcksPart (state_of world.old) t replica (state_of world.new)) }
    ensures why { IfErr result (AgainstAckPart (state_of world.old) t replica) }
    ensures err { OnErr result (state_of world.new ≡ state_of world.old) }
    ensures may { ForCaller (state_of world.old) t (λ stream. MayGo stream (state_of world.old) (state_of world.new)) }
{
    let Some(_place) = started_whole_at(world, t) else {
        return Err(NotThis::Ticket);
    };
    match part_of(world, replica) {
        Part::Taken | Part::Acked => {
            ack_on(world, replica);
            Ok(())
        }
        Part::Apart | Part::Owed => Err(NotThis::Pending(replica)),
    }
}

/// The replica's part of the started operation.
fn part_of(world: &World, replica: u8) -> Part
    ensures { IfSome world.now.whole (λ w. result ≡ part_at w.parts replica) }
{
    match &world.whole {
        Some(whole) => whole.parts.at(replica),
        None => Part::Apart,
    }
}

/// The replica acknowledges its part of the started operation.
fn ack_on(world: &mut World, replica: u8)
    ensures { IfSome world.old.whole (λ w. state_of world.new ≡ whole_acked (state_of world.old) w replica) }
{
    if let Some(whole) = &mut world.whole {
        whole.parts.set(replica, Part::Acked);
    }
}

/// Ends the started operation once each replica has acknowledged its part or has failed: with the answer of its
/// command, or with the mark of a part of a purge, for which there is none where no replica is read. A barrier ends with
/// neither: pages may be copied, if its rebuild is open. It gives the place of what it appended, and else the journal's
/// length. It takes no memory.
pub fn complete_whole(world: &mut World, t: TicketNumber) -> Result<u64, NotThis>
    requires sound { IsSound (state_of world.old) }
    ensures sound { IsSound (state_of world.new) }
    ensures place { IfOk result (λ place. place ≡ length world.old.journal.entries) }
    ensures ok { OnOk result (EndsWhole (state_of world.old) t (state_of world.new)) }
    ensures why { IfErr result (AgainstEndWhole (state_of world.old) t) }
    ensures err { OnErr result (state_of world.new ≡ state_of world.old) }
    ensures may { ForCaller (state_of world.old) t (λ stream. MayGo stream (state_of world.old) (state_of world.new)) }
{
    let Some(i) = started_whole_at(world, t) else {
        return Err(NotThis::Ticket);
    };
    if let Some(replica) = first_pending(world) {
        return Err(NotThis::Pending(replica));
    }
    Ok(end_at(world, i))
}

/// Where the started operation of that ticket stands, if it is one.
fn started_whole_at(world: &World, t: TicketNumber) -> Option<usize>
    requires { IsSound (state_of world.now) }
    ensures { MatchOption result
        ((w : Whole) (i : ℕ) → IsWholeOn (state_of world.now) t w i → ⊥)
        (λ i. (w : Whole) × IsWholeOn (state_of world.now) t w i) }
{
    match &world.whole {
        Some(whole) if whole.number == t => world.turns.place(t),
        _ => None,
    }
}

/// The first replica that has still to acknowledge its part of the started operation.
fn first_pending(world: &World) -> Option<u8>
    ensures { IfSome world.now.whole (λ w. MatchOption result
        ((r : ℕ) → r < length (modes_in (state_of world.now))
        → is_pending_at (mode_of (modes_in (state_of world.now)) r) (part_at w.parts r) ≡ false)
        (λ r. is_pending_at (mode_of (modes_in (state_of world.now)) r) (part_at w.parts r) ≡ true)) }
{
    let _replicas = world.journal.replica_count();
    match &world.whole {
        Some(whole) => whole.parts.first_pending(world.journal.modes()),
        None => None,
    }
}

/// The operation at i ends, as a replica is read or none is.
fn end_at(world: &mut World, i: usize) -> u64
    requires sound { IsSound (state_of world.old) }
    requires is { (t : ℕ) × (w : Whole) × IsWholeOn (state_of world.old) t w i }
    ensures place { result ≡ length world.old.journal.entries }
    ensures done { IfSome world.old.whole (λ w. HasSource (modes_in (state_of world.old))
        → state_of world.new ≡ whole_done (state_of world.old) i w.op) }
    ensures lost { IfSome world.old.whole (λ w. HasNoSource (modes_in (state_of world.old))
        → state_of world.new ≡ whole_lost (state_of world.old) i w.op) }
{
    let place = world.journal.len();
    let is_read = world.journal.source().is_some();
    let Some(whole) = world.whole.take() else {
        unreachable!()
    };
    match (whole.op, is_read) {
        (WholeOp::Purge(part), true) => {
            take_call(world, i);
            mark_part(world, part);
        }
        (WholeOp::Purge(_), false) => take_call(world, i),
        (WholeOp::Barrier(_), _) => {
            take_call(world, i);
            pass_barrier(world);
        }
        (op, true) => {
            end_with_answer(world, i, &op, Reply::Done);
        }
        (op, false) => {
            end_with_answer(world, i, &op, Reply::Refused(Refusal::NoReplica));
        }
    }
    place
}

/// The part of a purge is marked as done.
fn mark_part(world: &mut World, part: FoldOrDrop)
    requires { 0 < world.old.journal.spare }
    ensures { state_of world.new ≡ record (state_of world.old) {
      book = with_entry (state_of world.old).book (entry.Mark (mark.Purged part));
    } }
{
    world.journal.push_reserved(Entry::Mark(Mark::Purged(part)));
}

/// The operation at i, which is not kept as the started one any more, ends with the answer of its command.
pub(crate) fn end_with_answer(world: &mut World, i: usize, op: &WholeOp, reply: Reply) -> u64
    requires call { i < length world.old.calls.items }
    requires ticket { i < length world.old.turns.tickets }
    requires none { (state_of world.old).whole ≡ None }
    requires stream { (open_at world.old.calls.items i).stream < length world.old.indices.items }
    requires few { index_at world.old.indices.items (open_at world.old.calls.items i).stream
        ≤ length world.old.journal.entries }
    requires asked { IsAskedBy world.old.maint.tickets world.old.commands.items
        (open_at world.old.calls.items i).stream op.now }
    requires paired { length world.old.commands.items ≡ length world.old.maint.tickets }
    requires spare { 0 < world.old.journal.spare }
    ensures place { result ≡ length world.old.journal.entries }
    ensures state { state_of world.new ≡ whole_ended (state_of world.old) i op.now reply }
{
    let (stream, saw) = (world.calls[i].stream, world.calls[i].saw);
    take_call(world, i);
    end_turn(world, op);
    world.push_answer(stream, saw, Call::Command(op.command()), reply)
}

/// The command ends with the operation that has the turn; a snapshot has none.
fn end_turn(world: &mut World, op: &WholeOp)
    requires asked { (stream : ℕ) × IsAskedBy world.old.maint.tickets world.old.commands.items stream op.now }
    requires paired { length world.old.commands.items ≡ length world.old.maint.tickets }
    ensures { state_of world.new ≡ turn_over op.now (state_of world.old) }
{
    match op {
        WholeOp::Snapshot(_) => {}
        WholeOp::Remove(_) | WholeOp::Revert(_) | WholeOp::Purge(_) | WholeOp::Barrier(_) => {
            take_command(world, 0);
        }
    }
}

/// Takes the call at i out.
pub(crate) fn take_call(world: &mut World, i: usize)
    requires call { i < length world.old.calls.items }
    requires ticket { i < length world.old.turns.tickets }
    ensures { state_of world.new ≡ without_call (state_of world.old) i }
{
    world.turns.end_at(i);
    world.calls.remove(i);
}
