//! What a step does in more than one call, on a World that it has taken.

ghost use Rattle.std.specs.Prelude.{◌≡◌, OnOk, OnErr, ℕ, ◌<◌, List, Some, length, IfOk, IfErr, IfSome};
ghost use Rattle.open_calls.specs.Maint.{command_at};
ghost use Rattle.volume_core.specs.State.{state_of, modes_in};
ghost use Rattle.stream_steps.specs.Seen.{IsNextUp, RefusesFold};
ghost use Rattle.volume_core.specs.Sound.{IsSound};
ghost use Rattle.volume_core.specs.Streams.{MayGo};
ghost use Rattle.volume_core.specs.Against.{AgainstAck};
ghost use Rattle.volume_maint.specs.Answers.{FoldsPage, EnrolsWhole, MayAsk};
ghost use Rattle.volume_maint.specs.Places.{IsTurnOf};
ghost use Rattle.world_steps.specs.Seen.{seen_of};
ghost use Rattle.world_steps.specs.Acked.{AcksThen};
ghost use Rattle.world_steps.specs.Told.{told_with};
ghost use Rattle.open_calls.specs.Clients.{IsIdle};

use std::alloc::{AllocError, Global};
use stream_steps::WithSource;
use volume_core::{Admit, Command, Mode, NotThis, TicketNumber, World};
use volume_maint::{LayerName, WholeOp};

/// The first replica behind that one that has not failed.
pub(crate) fn next_up(world: &World, replica: u8) -> Option<u8>
    ensures next { IsNextUp (modes_in (state_of world.now)) replica result }
    ensures inside { IfSome result (λ r. r < length (modes_in (state_of world.now))) }
{
    (0..world.journal.replica_count()).find(|r| replica < *r && world.mode(*r) != Mode::Err)
}

/// What asking to start came to, told with the lowest replica that is read and written.
pub(crate) fn told_with<E: Drop>(
    answer: Result<Admit, E>,
    source: Option<u8>,
) -> Result<WithSource<Admit>, E>
    ensures { result ≡ told_with answer source }
{
    match answer {
        Ok(answer) => Ok(WithSource { answer, source }),
        Err(error) => Err(error),
    }
}

/// A replica has acknowledged its part of a started call, which ends thereby if it can end now: whether it does, is said.
pub(crate) fn ack_in(world: &mut World, t: TicketNumber, replica: u8) -> Result<bool, NotThis>
    requires sound { IsSound (state_of world.old) }
    ensures sound { IsSound (state_of world.new) }
    ensures ok { IfOk result (λ ended. AcksThen (state_of world.old) t replica ended (state_of world.new)) }
    ensures why { IfErr result (AgainstAck (state_of world.old) t replica) }
    ensures err { OnErr result (state_of world.new ≡ state_of world.old) }
{
    world.ack(t, replica)?;
    Ok(world.complete(t).is_ok())
}

/// A replica folds a page of the layer's one child onto the layer. Of what stands against it, that the replica is not
/// read is told first, and then that the volume has no such page, or nothing to fold.
pub(crate) fn fold_in(
    world: &mut World,
    replica: u8,
    parent: &LayerName,
    page: u32,
) -> Result<(), NotThis>
    requires sound { IsSound (state_of world.old) }
    requires purges { IsTurnOf (state_of world.old) Command.Purge
        × IsIdle (command_at world.old.commands.items 0).stream world.old.calls.items }
    ensures ok { OnOk result (FoldsPage (state_of world.old) replica parent.now page (state_of world.new)) }
    ensures why { IfErr result (RefusesFold replica parent.now page (modes_in (state_of world.old))
        (seen_of (state_of world.old)).log) }
    ensures err { OnErr result (state_of world.new ≡ state_of world.old) }
    ensures may { MayGo (command_at world.old.commands.items 0).stream (state_of world.old) (state_of world.new) }
{
    let mode = world.mode(replica);
    if mode != Mode::Rw {
        return Err(NotThis::Mode(mode));
    }
    if page >= world.size.page_count() {
        return Err(NotThis::Page);
    }
    volume_maint::fold_page(world, replica, parent, page)
}

/// Puts a snapshot behind all calls.
pub(crate) fn snapshot_in(
    world: &mut World,
    alloc: Global,
    stream: u8,
    op: &WholeOp,
) -> Result<TicketNumber, AllocError>
    requires sound { IsSound (state_of world.old) }
    requires stream { stream < length world.old.indices.items }
    requires idle { IsIdle stream world.old.calls.items }
    requires asks { MayAsk (state_of world.old) stream op.now }
    requires snapshot { (name : List ℕ) × (op.now ≡ WholeOp.Snapshot name) }
    ensures ok { IfOk result (λ t. EnrolsWhole (state_of world.old) stream op.now (Some t) (state_of world.new)) }
    ensures err { OnErr result (state_of world.new ≡ state_of world.old) }
    ensures may { MayGo stream (state_of world.old) (state_of world.new) }
{
    match volume_maint::enrol_whole(world, alloc, stream, op)? {
        Some(t) => Ok(t),
        None => unreachable!(),
    }
}
