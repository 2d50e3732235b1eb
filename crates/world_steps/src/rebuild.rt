//! What a turn does for the rebuild of the add that has the maintenance turn, on the World in hand.

ghost use Rattle.std.specs.Prelude.{◌≡◌, ◌≢◌, ◌⊎◌, ℕ, ◌<◌, List, [], ◌∷◌, ◌++◌, length, true, Some, None, IfOk, OnErr, IfSome, MatchOption};
ghost use Rattle.sparse_image.specs.Image.{IsLent};
ghost use Rattle.volume_model.specs.declared.call.Reply.TheVariants as reply;
ghost use Rattle.volume_model.specs.declared.entry.Entry.TheVariants as entry;
ghost use Rattle.volume_model.specs.declared.mark.Mark.TheVariants as mark;
ghost use Rattle.volume_model.specs.declared.entry.Entry.{Entry};
ghost use Rattle.volume_model.specs.Faults.{last_count};
ghost use Rattle.step_answers.specs.declared.whole_op.WholeOp.TheVariants as whole;
ghost use Rattle.open_calls.specs.Calls.{open_at};
ghost use Rattle.open_calls.specs.Maint.{command_at};
ghost use Rattle.volume_core.specs.State.{state_of};
ghost use Rattle.volume_core.specs.Sound.{IsSound};
ghost use Rattle.volume_core.specs.Steps.{faulted};
ghost use Rattle.volume_core.specs.Streams.{MayGo};
ghost use Rattle.volume_maint.specs.Places.{AwaitsWhole, ForCaller};
ghost use Rattle.volume_maint.specs.Answers.{EndsTurn, CannotEnd};
ghost use Rattle.volume_core.specs.Turn.{ForAsker};
ghost use Rattle.volume_rebuild.specs.Answers.{Promotes};
ghost use Rattle.world_steps.specs.Rebuild.{AdmitsBarrierIn, IsToldBegun, IsEndOf, AwaitsPromotion, IsPageIn, IsAbortedAt, AwaitsAt, IsEndedAt, IsNextIn, IsOutIn, PutsAt};

use std::alloc::{AllocError, Global};
use stream_steps::{Added, AdmitBarrier, NextPage, Page, PageIn, PageOut, PageRef};
use volume_core::{EntryView, Reply, TicketNumber, World};
use volume_maint::AdmitWhole;
use volume_model::Mark;

// ---- how it began

/// Starts the barrier of that ticket, where no earlier call is in its way, and with it the rebuild.
pub(crate) fn barrier_in(
    world: &mut World,
    alloc: Global,
    t: TicketNumber,
) -> Result<AdmitBarrier, AllocError>
    requires sound { IsSound (state_of world.old) }
    requires barrier { (i r : ℕ) × AwaitsWhole (state_of world.old) t i
        × ((open_at world.old.calls.items i).op ≡ Some (whole.Barrier r)) }
    ensures sound { IsSound (state_of world.new) }
    ensures ok { IfOk result (λ a. AdmitsBarrierIn (state_of world.old) t a (state_of world.new)) }
    ensures err { OnErr result (state_of world.new ≡ state_of world.old) }
    ensures may { ForCaller (state_of world.old) t (λ stream. MayGo stream (state_of world.old) (state_of world.new)) }
{
    let admit = volume_maint::admit_whole(world, alloc, t)?;
    Ok(match admit {
        AdmitWhole::Go => AdmitBarrier::Go(begun_in(world)),
        AdmitWhole::After(other) => AdmitBarrier::After(other),
        AdmitWhole::Never => AdmitBarrier::Never,
        AdmitWhole::Refused(_, _) => AdmitBarrier::Refused,
    })
}

/// How the rebuild began that is open: its mark is the journal's last entry.
fn begun_in(world: &World) -> Added
    requires { (front : List Entry) × (target source : ℕ) × (name : List ℕ)
        × (world.now.journal.entries ≡ front ++ entry.Mark (mark.Added target source name) ∷ []) }
    ensures { IsToldBegun result (state_of world.now) }
{
    match world.journal.entry(world.journal.len() - 1) {
        EntryView::Mark(Mark::Added { source, name, .. }) => Added {
            source: *source,
            name: *name,
        },
        _ => unreachable!(),
    }
}

// ---- pages

/// The first page that is not listed.
pub(crate) fn next_in(world: &World) -> NextPage
    requires sound { IsSound (state_of world.now) }
    ensures { IsNextIn result (state_of world.now) }
{
    if let Some(place) = end_of(world) {
        return NextPage::Ended(place);
    }
    match volume_rebuild::copy_next(world) {
        Some(page) => NextPage::Page(page),
        None => NextPage::All,
    }
}

/// Copies what the source itself has of the page, which is left to copy, or else was when its rebuild was aborted.
pub(crate) fn out_in(world: &World, page: &PageRef, into: &mut Page) -> PageOut
    requires sound { IsSound (state_of world.now) }
    requires page { AwaitsAt (state_of world.now).rebuild (state_of world.now).ended page.now }
    requires lent { IsLent into.old }
    ensures { IsOutIn result page.now into.old into.new (state_of world.now) }
{
    match volume_rebuild::copy_out(world, page, into) {
        Ok(true) => PageOut::Blocks,
        Ok(false) => PageOut::Empty,
        Err(_why) => PageOut::Ended(ended_place(world)),
    }
}

/// Puts the page, which is left to copy, or else was when its rebuild was aborted, into the replica that is rebuilt.
pub(crate) fn put_in(world: &mut World, page: &PageRef, with: &mut Page) -> PageIn
    requires sound { IsSound (state_of world.old) }
    requires page { AwaitsAt (state_of world.old).rebuild (state_of world.old).ended page.now }
    requires blocks { IsPageIn (state_of world.old) page.now with.old }
    ensures puts { PutsAt result page.now with.old with.new (state_of world.old) (state_of world.new) }
    ensures may { MayGo (command_at world.old.commands.items 0).stream (state_of world.old) (state_of world.new) }
{
    match volume_rebuild::copy_in(world, page, with) {
        Ok(()) => PageIn::Listed,
        Err(_why) => PageIn::Ended(ended_place(world)),
    }
}

// ---- its end

/// Where its aborted mark stands, if it was aborted.
pub(crate) fn end_of(world: &World) -> Option<u64>
    requires sound { IsSound (state_of world.now) }
    ensures { MatchOption result ((state_of world.now).ended ≡ None) (λ place. IsEndedAt (state_of world.now) place) }
{
    match &world.ended {
        Some(ended) => Some(ended.place),
        None => None,
    }
}

/// Where its aborted mark stands, once it was aborted.
fn ended_place(world: &World) -> u64
    requires { (state_of world.now).ended ≢ None }
    ensures { IsAbortedAt (state_of world.now).ended result }
{
    match &world.ended {
        Some(ended) => ended.place,
        None => unreachable!(),
    }
}

/// The stream's line to the source or to the target of the add's rebuild has failed, and so that replica: it is told where
/// the aborted mark of the rebuild stands.
pub(crate) fn fall_in(world: &mut World, stream: u8, replica: u8, count: u64) -> u64
    requires sound { IsSound (state_of world.old) }
    requires stream { stream < length world.old.indices.items }
    requires part { IsEndOf (state_of world.old) replica }
    requires above { last_count stream replica world.old.journal.entries < count }
    ensures fell { (state_of world.new ≡ faulted (state_of world.old) stream replica count)
        ⊎ (state_of world.new ≡ state_of world.old) }
    ensures is { IsEndedAt (state_of world.new) result }
    ensures may { MayGo stream (state_of world.old) (state_of world.new) }
{
    let _told = world.fault(stream, replica, count);
    ended_place(world)
}

/// Promotes the replica that is rebuilt, and answers the add.
pub(crate) fn promote_in(world: &mut World, t: TicketNumber) -> Option<u64>
    requires sound { IsSound (state_of world.old) }
    ensures done { IfSome result (λ place. Promotes (state_of world.old) t (state_of world.new)) }
    ensures why { result ≡ None → AwaitsPromotion (state_of world.old) t }
    ensures none { result ≡ None → state_of world.new ≡ state_of world.old }
    ensures may { ForAsker (state_of world.old) t (λ stream. MayGo stream (state_of world.old) (state_of world.new)) }
{
    match volume_rebuild::promote(world, t) {
        Ok(place) => Some(place),
        Err(_why) => None,
    }
}

/// Answers the add that its rebuild was aborted.
pub(crate) fn end_in(world: &mut World, t: TicketNumber, place: u64) -> Option<u64>
    requires sound { IsSound (state_of world.old) }
    ensures done { IfSome result (λ at. EndsTurn (state_of world.old) t (reply.Aborted place) (state_of world.new)) }
    ensures why { result ≡ None → CannotEnd (state_of world.old) t (reply.Aborted place) }
    ensures none { result ≡ None → state_of world.new ≡ state_of world.old }
    ensures may { ForAsker (state_of world.old) t (λ stream. MayGo stream (state_of world.old) (state_of world.new)) }
{
    match volume_maint::end_maint(world, t, Reply::Aborted(place)) {
        Ok(at) => Some(at),
        Err(_why) => None,
    }
}
