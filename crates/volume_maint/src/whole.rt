//! An operation on the whole volume is enrolled, starts, and is taken on each replica.

ghost use Rattle.std.specs.Prelude.{◌≡◌, ◌≢◌, ℕ, List, ◌<◌, length, map, true, false, None, Some, IfOk, IfErr, IfSome, OnOk, OnErr};
ghost use Rattle.volume_model.specs.Modes.{HasSource, IsSource};
ghost use Rattle.range_turns.specs.Order.{ticket_at, IsFresh, IsClear};
ghost use Rattle.open_calls.specs.Calls.{open_at, node_at};
ghost use Rattle.open_calls.specs.Clients.{IsIdle};
ghost use Rattle.step_answers.specs.Parts.{part_at};
ghost use Rattle.open_calls.specs.declared.whole.Whole.{Whole};
ghost use Rattle.open_calls.specs.Maint.{CanStill};
ghost use Rattle.open_calls.specs.Whole.{IsFit, IsSpared, spare_at};
ghost use Rattle.volume_core.specs.State.{state_of, modes_in};
ghost use Rattle.volume_core.specs.Steps.{with_place, enrolled, without_call};
ghost use Rattle.volume_core.specs.Sound.{IsSound};
ghost use Rattle.volume_core.specs.Streams.{MayGo};
ghost use Rattle.volume_maint.specs.Steps.{whole_ticket, whole_parted, whole_ended};
ghost use Rattle.volume_maint.specs.Places.{AwaitsWhole, ForCaller, IsWholeOn};
ghost use Rattle.volume_maint.specs.Answers.{snapshots_told, IsLongSource, MayAsk, seen_by, EnrolsWhole, CannotGo, AdmitsWhole, MayBegin, BeginsWhole, BeginsWith, TakesPart, AgainstPart};

use crate::barrier::{begin_barrier, may_begin};
use crate::fold::can_go;
use crate::places::waiting_whole_at;
use crate::refusal::refusal;
use crate::whole_end::{end_with_answer, take_call};
use open_calls::{OpenCall, Part, Spares, Whole, WholeOp, take_part};
use range_turns::{BlockRange, Kind, TicketNumber};
use std::alloc::{AllocError, Global};
use step_answers::AdmitWhole;
use volume_core::{Mode, NotThis, Parts, Refusal, Reply, World};

/// Puts an operation behind all calls: a snapshot of a stream that has none open, or what the command does that has the
/// turn, one operation at a time. None: a part of a purge that cannot go now.
pub fn enrol_whole(
    world: &mut World,
    alloc: Global,
    stream: u8,
    op: &WholeOp,
) -> Result<Option<TicketNumber>, AllocError>
    requires sound { IsSound (state_of world.old) }
    requires stream { stream < length world.old.indices.items }
    requires idle { IsIdle stream world.old.calls.items }
    requires asks { MayAsk (state_of world.old) stream op.now }
    ensures sound { IsSound (state_of world.new) }
    ensures ok { IfOk result (λ t. EnrolsWhole (state_of world.old) stream op.now t (state_of world.new)) }
    ensures err { OnErr result (state_of world.new ≡ state_of world.old) }
    ensures may { MayGo stream (state_of world.old) (state_of world.new) }
{
    if !can_be_asked(world, op) {
        return Ok(None);
    }
    // That the volume has whole pages, a proof learns here.
    let _size = world.size.bytes();
    let saw = seen_by(world, op);
    let number = put_whole(world, OpenCall::of_whole(alloc, stream, saw, *op))?;
    Ok(Some(number))
}

/// Whether the operation can be enrolled: a part of a purge has to go.
fn can_be_asked(world: &World, op: &WholeOp) -> bool
    requires sound { IsSound (state_of world.now) }
    requires asks { (stream : ℕ) × IsIdle stream world.now.calls.items × MayAsk (state_of world.now) stream op.now }
    ensures can { result ≡ true → CanStill (snapshots_told (state_of world.now)) (modes_in (state_of world.now))
        world.now.nodes.items op.now }
    ensures cannot { result ≡ false → CannotGo (state_of world.now) op.now }
{
    match op {
        WholeOp::Purge(part) => can_go(world, part),
        WholeOp::Snapshot(_) | WholeOp::Remove(_) | WholeOp::Revert(_) | WholeOp::Barrier(_) =>
            true,
    }
}

/// What the caller of the operation saw.
fn seen_by(world: &World, op: &WholeOp) -> u64
    requires { (stream : ℕ) × MayAsk (state_of world.now) stream op.now }
    ensures { result ≡ seen_by (state_of world.now) op.now }
{
    match op {
        WholeOp::Snapshot(_) => world.journal.len(),
        WholeOp::Remove(_) | WholeOp::Revert(_) | WholeOp::Purge(_) | WholeOp::Barrier(_) =>
            world.commands[0].saw,
    }
}

/// Puts an operation behind all calls.
fn put_whole(world: &mut World, call: OpenCall) -> Result<TicketNumber, AllocError>
    ensures fresh { IfOk result (IsFresh world.old.turns.tickets) }
    ensures ok { IfOk result (λ number.
        state_of world.new ≡ enrolled (state_of world.old) (whole_ticket number) call) }
    ensures err { OnErr result (state_of world.new ≡ state_of world.old) }
{
    world.calls.reserve(1)?;
    world.turns.reserve(1)?;
    let all = BlockRange { first: 0, end: 0 };
    let number = world.turns.enrol(all, Kind::Whole);
    world.calls.push(call).unwrap();
    Ok(number)
}

/// Starts an operation that waits, if nothing earlier is in its way, its rebuild may begin, where it is a barrier, and
/// nothing stands against its command. It takes all memory that the operation needs.
pub fn admit_whole(
    world: &mut World,
    alloc: Global,
    t: TicketNumber,
) -> Result<AdmitWhole, AllocError>
    requires sound { IsSound (state_of world.old) }
    requires waits { (i : ℕ) × AwaitsWhole (state_of world.old) t i }
    ensures sound { IsSound (state_of world.new) }
    ensures ok { IfOk result (λ a. AdmitsWhole (state_of world.old) t a (state_of world.new)) }
    ensures err { OnErr result (state_of world.new ≡ state_of world.old) }
    ensures may { ForCaller (state_of world.old) t (λ stream. MayGo stream (state_of world.old) (state_of world.new)) }
{
    let i = waiting_whole_at(world, t);
    if let Some(j) = world.turns.in_way(i) {
        return Ok(AdmitWhole::After(world.turns.ticket(j).number));
    }
    let op = op_at(world, i);
    if !may_begin(world, &op) {
        return Ok(AdmitWhole::Never);
    }
    if let Some(why) = refusal(world, &op.command()) {
        let place = refuse(world, i, &op, why)?;
        return Ok(AdmitWhole::Refused(why, place));
    }
    let source = long_source(world);
    let _entries = world.journal.len();
    begin(world, alloc, i, op, source)?;
    Ok(AdmitWhole::Go)
}

/// The operation of a ticket for the whole volume.
fn op_at(world: &World, i: usize) -> WholeOp
    requires sound { IsSound (state_of world.now) }
    requires within { i < length world.now.turns.tickets }
    requires whole { (ticket_at world.now.turns.tickets i).kind ≡ Kind.Whole }
    ensures { (open_at world.now.calls.items i).op ≡ Some result }
{
    match world.calls[i].op {
        Some(op) => op,
        None => unreachable!(),
    }
}

/// The first replica that is read. That its layers are as long as its head, a proof learns here.
fn long_source(world: &World) -> u8
    requires sound { IsSound (state_of world.now) }
    requires read { HasSource (modes_in (state_of world.now)) }
    ensures first { IsSource (modes_in (state_of world.now)) result }
    ensures long { IsLongSource (state_of world.now) result }
{
    let source = world.journal.source().unwrap();
    let _blocks = world.nodes[source as usize].block_count();
    source
}

/// The operation at i starts, where that is the first replica that is read.
fn begin(
    world: &mut World,
    alloc: Global,
    i: usize,
    op: WholeOp,
    source: u8,
) -> Result<(), AllocError>
    requires sound { IsSound (state_of world.old) }
    requires within { i < length world.old.turns.tickets }
    requires clear { IsClear world.old.turns.tickets i }
    requires none { (state_of world.old).whole ≡ None }
    requires may { MayBegin (state_of world.old) op }
    requires source { IsSource (modes_in (state_of world.old)) source }
    ensures ok { OnOk result (BeginsWhole (state_of world.old) i op (state_of world.new)) }
    ensures err { OnErr result (state_of world.new ≡ state_of world.old) }
{
    match op {
        WholeOp::Barrier(target) => begin_barrier(world, alloc, i, target, source),
        WholeOp::Snapshot(_) | WholeOp::Remove(_) | WholeOp::Revert(_) | WholeOp::Purge(_) =>
            begin_other(world, alloc, i, op),
    }
}

/// An operation starts that is no barrier.
fn begin_other(world: &mut World, alloc: Global, i: usize, op: WholeOp) -> Result<(), AllocError>
    requires sound { IsSound (state_of world.old) }
    requires within { i < length world.old.turns.tickets }
    requires clear { IsClear world.old.turns.tickets i }
    ensures ok { OnOk result (BeginsWith (state_of world.old) i op (state_of world.new)) }
    ensures err { OnErr result (state_of world.new ≡ state_of world.old) }
{
    let _replicas = world.journal.replica_count();
    let spares = Spares::of(alloc, &world.nodes, world.journal.modes(), &op)?;
    world.journal.reserve(world.journal.spare() + 1)?;
    let parts = Parts::of_modes(world.journal.modes());
    let number = world.turns.ticket(i).number;
    world.turns.start_at(i);
    world.whole = Some(Whole {
        number,
        op,
        parts,
        spares,
    });
    Ok(())
}

/// The command of the operation at i is refused.
fn refuse(world: &mut World, i: usize, op: &WholeOp, why: Refusal) -> Result<u64, AllocError>
    requires sound { IsSound (state_of world.old) }
    requires within { i < length world.old.turns.tickets }
    requires whole { (ticket_at world.old.turns.tickets i).kind ≡ Kind.Whole }
    requires op { (open_at world.old.calls.items i).op ≡ Some op.now }
    requires none { (state_of world.old).whole ≡ None }
    ensures place { IfOk result (λ place. place ≡ length world.old.journal.entries) }
    ensures ok { OnOk result (state_of world.new
        ≡ whole_ended (with_place (state_of world.old)) i op.now (Reply.Refused why)) }
    ensures err { OnErr result (state_of world.new ≡ state_of world.old) }
{
    world.journal.reserve(world.journal.spare() + 1)?;
    Ok(end_with_answer(world, i, op, Reply::Refused(why)))
}

/// Takes back an operation that has not started. It takes no memory.
pub fn withdraw_whole(world: &mut World, t: TicketNumber)
    requires sound { IsSound (state_of world.old) }
    requires waits { (i : ℕ) × AwaitsWhole (state_of world.old) t i }
    ensures sound { IsSound (state_of world.new) }
    ensures gone { (i : ℕ) × AwaitsWhole (state_of world.old) t i
        × (state_of world.new ≡ without_call (state_of world.old) i) }
    ensures may { ForCaller (state_of world.old) t (λ stream. MayGo stream (state_of world.old) (state_of world.new)) }
{
    let i = waiting_whole_at(world, t);
    take_call(world, i);
}

/// A replica takes its part of the started operation. It takes no memory.
pub fn part(world: &mut World, t: TicketNumber, replica: u8) -> Result<(), NotThis>
    requires sound { IsSound (state_of world.old) }
    ensures sound { IsSound (state_of world.new) }
    ensures ok { OnOk result (TakesPart (state_of world.old) t replica (state_of world.new)) }
    ensures why { IfErr result (AgainstPart (state_of world.old) t replica) }
    ensures err { OnErr result (state_of world.new ≡ state_of world.old) }
    ensures may { ForCaller (state_of world.old) t (λ stream. MayGo stream (state_of world.old) (state_of world.new)) }
{
    let mode = world.journal.mode(replica);
    if mode == Mode::Err {
        return Err(NotThis::Mode(mode));
    }
    if !owes_part(world, t, replica) {
        return Err(NotThis::Ticket);
    }
    let _entries = world.journal.len();
    part_on(world, replica);
    Ok(())
}

/// Whether that ticket's operation has started, and the replica owes its part.
fn owes_part(world: &World, t: TicketNumber, replica: u8) -> bool
    requires sound { IsSound (state_of world.now) }
    ensures owes { result ≡ true → (w : Whole) × (i : ℕ) × IsWholeOn (state_of world.now) t w i
        × (part_at w.parts replica ≡ Part.Owed) }
    ensures not { result ≡ false → (w : Whole) (i : ℕ) → IsWholeOn (state_of world.now) t w i
        → part_at w.parts replica ≢ Part.Owed }
{
    match &world.whole {
        Some(whole) => whole.number == t && whole.parts.at(replica) == Part::Owed,
        None => false,
    }
}

/// The replica takes its part of the operation that has started.
fn part_on(world: &mut World, replica: u8)
    requires node { replica < length world.old.nodes.items }
    requires fit { IfSome world.old.whole (λ w. IsFit w.op (node_at world.old.nodes.items replica)) }
    requires spare { IfSome world.old.whole (λ w.
        IsSpared w.op (node_at world.old.nodes.items replica) (spare_at w.spares replica)) }
    ensures { IfSome world.old.whole (λ w. state_of world.new ≡ whole_parted (state_of world.old) w replica) }
{
    if let Some(whole) = &mut world.whole {
        let spare = whole.spares.take(replica);
        whole.parts.set(replica, Part::Taken);
        take_part(&mut world.nodes[replica as usize], &whole.op, spare);
    }
}
