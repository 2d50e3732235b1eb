//! A backup, from its call to its answer.

ghost use Rattle.std.specs.Prelude.{◌≡◌, ◌≤◌, ℕ, List, [], length, true, None, Some, IsSome, is_ok, false, Option, IfOk, IfErr, OnOk, OnErr, IfSome, option_map};
ghost use Rattle.target_traits.specs.Objects.{Objects};
ghost use Rattle.backup_units.specs.Faults.{HasFault};
ghost use Rattle.backup_make.specs.Giving.{HasCopy, KeepsGiver};
ghost use Rattle.backup_make.specs.Made.{IsMade};
ghost use Rattle.backup_make.specs.Making.{IsBase, is_make_fault};
ghost use Rattle.volume_model.specs.declared.command.Command.{Command};
ghost use Rattle.vol_units.specs.Name.{IsLayerName};
ghost use Rattle.volume_model.specs.Modes.{HasSource};
ghost use Rattle.stream_steps.specs.Mine.{OwnCall, with_running};
ghost use Rattle.stream_steps.specs.Does.{StandsStill};
ghost use Rattle.stream_steps.specs.Backup.{HasBackup, KeepsCopies, KeepsTold};
ghost use Rattle.client_worker.specs.Working.{IsServing, KeepsLines, Stays};
ghost use Rattle.control_worker.specs.Backups.{BacksUp, IsLast, IsTriedOf, MakesOf, Tries, base_in, last_of, reply_of, tells_fault};
ghost use Rattle.control_worker.specs.Giver.{GivesOn};
ghost use Rattle.control_worker.specs.Serving.{GaveUp, GrewByCommand};
ghost use Rattle.control_worker.specs.Store.{StoreSoFar, TellsFault};
ghost use Rattle.control_worker.specs.Whole.{GoesOn};

use crate::carrier::Carrier;
use crate::giver::{Giver, PageRooms};
use backup_make::{BackupList, MakeError, PageGiver, has_cfg, make};
use client_worker::{Channel, Line};
use range_turns::TicketNumber;
use std::alloc::{AllocError, Global};
use std::sync::Wait;
use stream_steps::{BackupSteps, Command};
use target_traits::Target;
use vol_units::{LayerName, PlainName, TimeText, VolumeSize};
use volume_model::{Refusal, Reply};

/// How a try at a backup ended.
#[derive(Drop)]
pub(crate) enum Tried {
    /// It was made.
    Made(BackupList),
    /// It was not, for that reason.
    Refused(Refusal),
}

impl<C: BackupSteps + Drop, L: Line + Drop> Carrier<C, L> {
    /// Backs a snapshot up to the target, under the maintenance turn, and says whether the target failed. The backup of the
    /// stream that was made last is the base of the next, where its snapshot can be used still. Out of memory gives the turn
    /// back.
    pub(crate) fn backup<R: Wait, T: Target>(
        &mut self,
        rt: &R,
        alloc: Global,
        volume: &PlainName,
        backup: &PlainName,
        snapshot: &LayerName,
        now: &TimeText,
        target: &mut T,
        last: &mut Option<BackupList>,
    ) -> Result<bool, AllocError>
        requires idle { (C.mine self.old.steps).running ≡ [] }
        requires last { IfSome last.old (IsLast T.tells (T.holds target.old) volume.now (C.mine self.old.steps).entries) }
        // Where memory ran out, it may tell that the stream gave up.
        ensures home { OnOk result (C.home self.new.steps ≡ C.home self.old.steps) }
        ensures lines { KeepsLines L.ends self.old self.new }
        ensures ok { OnOk result (GrewByCommand (Command.Backup backup.now snapshot.now)
            (C.mine self.old.steps) (C.mine self.new.steps)) }
        ensures last { OnOk result
            (IfSome last.new (IsLast T.tells (T.holds target.new) volume.now (C.mine self.new.steps).entries)) }
        ensures store { OnOk result (T.tells ≡ true → (first : Objects) (from : ℕ)
            → StoreSoFar first from (T.holds target.old) (T.faults target.old) volume.now (C.mine self.old.steps).entries
            → StoreSoFar first from (T.holds target.new) (T.faults target.new) volume.now (C.mine self.new.steps).entries) }
        ensures fault { IfOk result (λ failed. TellsFault failed (T.faults target.old) (T.faults target.new)) }
        ensures later { T.faults target.old ≤ T.faults target.new }
        ensures err { OnErr result (GaveUp (C.mine self.old.steps) (C.mine self.new.steps)) }
    {
        let command = Command::Backup {
            backup: *backup,
            snapshot: *snapshot,
        };
        let t = self.steps.enrol_maint(rt, alloc, &command)?;
        self.await_turn(rt, t);
        let done = back_up(
            rt,
            alloc,
            &mut self.steps,
            &mut self.channels,
            t,
            volume,
            backup,
            snapshot,
            now,
            target,
            last,
        );
        if done.is_err() {
            self.steps.abandon(rt, t);
        }
        done
    }
}

/// Takes the backup that has the turn to its answer, try after try, and says whether the target failed.
fn back_up<R: Wait, T: Target, C: BackupSteps, L: Line + Drop>(
    rt: &R,
    alloc: Global,
    steps: &mut C,
    channels: &mut [Channel<L>],
    t: TicketNumber,
    volume: &PlainName,
    backup: &PlainName,
    snapshot: &LayerName,
    now: &TimeText,
    target: &mut T,
    last: &mut Option<BackupList>,
) -> Result<bool, AllocError>
    requires serving { IsServing C.ready (λ s. with_running (C.mine s) []) L.count L.carried
        (record { steps = steps.old; channels = channels.old }) }
    requires turn { (o : OwnCall) × HasBackup t backup.now snapshot.now o (C.mine steps.old) }
    requires last { IfSome last.old (IsLast T.tells (T.holds target.old) volume.now (C.mine steps.old).entries) }
    ensures serving { IsServing C.ready (λ s. with_running (C.mine s) []) L.count L.carried
        (record { steps = steps.new; channels = channels.new }) }
    ensures stays { Stays C.home L.ends (record { steps = steps.old; channels = channels.old })
        (record { steps = steps.new; channels = channels.new }) }
    ensures ok { IfOk result (λ failed. (o : OwnCall) → HasBackup t backup.now snapshot.now o (C.mine steps.old)
        → BacksUp T.tells volume.now backup.now snapshot.now o failed (T.holds target.old) (T.holds target.new)
        (T.faults target.old) (T.faults target.new) (C.mine steps.old) (C.mine steps.new)) }
    ensures last { OnOk result
        (IfSome last.new (IsLast T.tells (T.holds target.new) volume.now (C.mine steps.new).entries)) }
    ensures later { T.faults target.old ≤ T.faults target.new }
    ensures err { OnErr result (GoesOn (C.mine steps.old) (C.mine steps.new)) }
{
    for _ in rt.forever() {
        let tried = try_backup(
            rt, alloc, steps, channels, t, volume, backup, snapshot, now, target, &*last,
        )?;
        if steps.end_backup(rt, t, reply_of(&tried)).is_ok() {
            return Ok(finish(tried, last));
        }
    }
    unreachable!()
}

/// What a try is answered.
fn reply_of(tried: &Tried) -> Reply
    ensures { result ≡ reply_of tried.now }
{
    match tried {
        Tried::Made(_) => Reply::Done,
        Tried::Refused(why) => Reply::Refused(*why),
    }
}

/// Keeps the list of a backup that was made as the last, and says whether the target failed.
fn finish(tried: Tried, last: &mut Option<BackupList>) -> bool
    ensures last { last.new ≡ last_of tried last.old }
    ensures failed { result ≡ tells_fault (reply_of tried) }
{
    match tried {
        Tried::Made(list) => {
            *last = Some(list);
            false
        }
        Tried::Refused(why) => why == Refusal::TargetFault,
    }
}

/// Tries to back the snapshot up. A snapshot that can be used stays one while the backup has the turn.
fn try_backup<R: Wait, T: Target, C: BackupSteps, L: Line + Drop>(
    rt: &R,
    alloc: Global,
    steps: &mut C,
    channels: &mut [Channel<L>],
    t: TicketNumber,
    volume: &PlainName,
    backup: &PlainName,
    snapshot: &LayerName,
    now: &TimeText,
    target: &mut T,
    last: &Option<BackupList>,
) -> Result<Tried, AllocError>
    requires serving { IsServing C.ready (λ s. with_running (C.mine s) []) L.count L.carried
        (record { steps = steps.old; channels = channels.old }) }
    requires turn { (b s : List ℕ) × (o : OwnCall) × HasBackup t b s o (C.mine steps.old) }
    requires last { IfSome last.now
        (IsLast T.tells (T.holds target.old) volume.now (C.mine steps.old).entries) }
    ensures serving { IsServing C.ready (λ s. with_running (C.mine s) []) L.count L.carried
        (record { steps = steps.new; channels = channels.new }) }
    ensures keeps { GivesOn C.home C.mine C.copies L.ends (record { steps = steps.old; channels = channels.old })
        (record { steps = steps.new; channels = channels.new }) }
    ensures ok { IfOk result (λ tried. Tries T.tells volume.now backup.now snapshot.now
        (C.copies steps.new snapshot.now) tried (T.holds target.old) (T.holds target.new) (T.faults target.old)
        (T.faults target.new) (C.mine steps.old)) }
    ensures later { T.faults target.old ≤ T.faults target.new }
{
    let Some(size) = steps.copy_size(rt, t, snapshot) else {
        return Ok(Tried::Refused(Refusal::NoSuchSnapshot));
    };
    if steps.lowest(rt, t).is_none() {
        return tried_of(look_only(alloc, target, volume, backup));
    }
    let mut rooms = PageRooms::new(alloc);
    tried_of(make_over(
        rt, alloc, steps, channels, t, volume, backup, snapshot, size, now, target, last,
        &mut rooms,
    ))
}

/// How a try ended in which the backup was made, or was not.
fn tried_of(made: Result<BackupList, MakeError>) -> Result<Tried, AllocError>
    ensures { IfOk result (IsTriedOf made) }
{
    match made {
        Ok(list) => Ok(Tried::Made(list)),
        Err(MakeError::Exists) => Ok(Tried::Refused(Refusal::BackupExists)),
        Err(MakeError::NoReplica) => Ok(Tried::Refused(Refusal::NoReplica)),
        Err(MakeError::BlockDiffers(_)) => Ok(Tried::Refused(Refusal::BlockDiffers)),
        Err(MakeError::TargetFault) => Ok(Tried::Refused(Refusal::TargetFault)),
        Err(MakeError::NoMemory) => Err(AllocError),
    }
}

/// While no replica is read: there is such a backup, or no page of it can be read.
fn look_only<T: Target>(
    alloc: Global,
    target: &mut T,
    volume: &PlainName,
    backup: &PlainName,
) -> Result<BackupList, MakeError>
    ensures none { is_ok result ≡ false }
    ensures store { T.tells ≡ true → (copy : Option (List ℕ))
        → MakesOf volume.now backup.now copy result (T.holds target.old) (T.holds target.new) }
    ensures cause { HasFault is_make_fault (T.faults target.old) (T.faults target.new) result }
{
    if has_cfg(alloc, target, volume, backup)? {
        return Err(MakeError::Exists);
    }
    Err(MakeError::NoReplica)
}

/// Makes it by these steps over these lines, in these rooms.
fn make_over<R: Wait, T: Target, C: BackupSteps, L: Line + Drop>(
    rt: &R,
    alloc: Global,
    steps: &mut C,
    channels: &mut [Channel<L>],
    t: TicketNumber,
    volume: &PlainName,
    backup: &PlainName,
    snapshot: &LayerName,
    size: VolumeSize,
    now: &TimeText,
    target: &mut T,
    last: &Option<BackupList>,
    rooms: &mut PageRooms,
) -> Result<BackupList, MakeError>
    requires serving { IsServing C.ready (λ s. with_running (C.mine s) []) L.count L.carried
        (record { steps = steps.old; channels = channels.old }) }
    requires turn { (b s : List ℕ) × (o : OwnCall) × HasBackup t b s o (C.mine steps.old) }
    requires copy { HasCopy (C.copies steps.old snapshot.now) size }
    requires last { IfSome last.now
        (IsLast T.tells (T.holds target.old) volume.now (C.mine steps.old).entries) }
    ensures serving { IsServing C.ready (λ s. with_running (C.mine s) []) L.count L.carried
        (record { steps = steps.new; channels = channels.new }) }
    ensures keeps { GivesOn C.home C.mine C.copies L.ends (record { steps = steps.old; channels = channels.old })
        (record { steps = steps.new; channels = channels.new }) }
    ensures made { IfOk result (IsMade T.tells (T.holds target.new) volume.now
        (C.copies steps.old snapshot.now) snapshot.now) }
    ensures store { T.tells ≡ true → MakesOf volume.now backup.now (C.copies steps.old snapshot.now) result
        (T.holds target.old) (T.holds target.new) }
    ensures cause { HasFault is_make_fault (T.faults target.old) (T.faults target.new) result }
{
    let base = base_of(rt, steps, t, last);
    let is_base = base.is_some();
    let mut giver = Giver {
        steps,
        channels,
        turn: t,
        snapshot: *snapshot,
        base,
        rooms,
    };
    make_with(
        rt, alloc, target, volume, backup, snapshot, size, now, &mut giver, last, is_base,
    )
}

/// Makes it of the pages that are given. The last backup is its base, or there is none.
fn make_with<R: Wait, T: Target, P: PageGiver>(
    rt: &R,
    alloc: Global,
    target: &mut T,
    volume: &PlainName,
    backup: &PlainName,
    snapshot: &LayerName,
    size: VolumeSize,
    now: &TimeText,
    pages: &mut P,
    last: &Option<BackupList>,
    is_base: bool,
) -> Result<BackupList, MakeError>
    requires ready { P.ready pages.old }
    requires asked { P.asked pages.old ≡ snapshot.now }
    requires copy { HasCopy (P.copies pages.old (P.asked pages.old)) size }
    requires base { is_base ≡ true → IfSome last.now
        (λ b. IsBase T.tells (T.holds target.old) volume.now (P.copies pages.old) b.snapshot b.blocks) }
    ensures made { IfOk result (IsMade T.tells (T.holds target.new) volume.now
        (P.copies pages.old (P.asked pages.old)) snapshot.now) }
    ensures store { T.tells ≡ true → MakesOf volume.now backup.now (P.copies pages.old (P.asked pages.old)) result
        (T.holds target.old) (T.holds target.new) }
    ensures giver { KeepsGiver P.ready P.home P.lasts pages.old pages.new }
    ensures cause { HasFault is_make_fault (T.faults target.old) (T.faults target.new) result }
{
    if is_base {
        if let Some(list) = last {
            return make(
                rt,
                alloc,
                target,
                volume,
                backup,
                snapshot,
                size,
                now,
                pages,
                Some(list),
            );
        }
    }
    make(
        rt, alloc, target, volume, backup, snapshot, size, now, pages, None,
    )
}

/// The snapshot of the last backup, where it can be used.
fn base_of<R: Wait, C: BackupSteps>(
    rt: &R,
    steps: &mut C,
    t: TicketNumber,
    last: &Option<BackupList>,
) -> Option<LayerName>
    requires ready { C.ready steps.old }
    requires turn { (b s : List ℕ) × (o : OwnCall) × HasBackup t b s o (C.mine steps.old) }
    ensures stands { StandsStill C.ready C.home C.mine steps.old steps.new }
    ensures kept { KeepsCopies (C.copies steps.old) (C.copies steps.new) }
    ensures live { IfSome result (λ n. IsSome (C.copies steps.new n)) }
    ensures told { IfSome result (λ n. KeepsTold (C.mine steps.new) (C.copies steps.new)) }
    ensures is { IfSome last.now (λ list. IsLayerName list.snapshot) → result ≡ base_in (C.copies steps.new) last.now }
{
    let Some(list) = last else {
        return None;
    };
    let Ok(name) = LayerName::read(list.snapshot().as_bytes()) else {
        return None;
    };
    steps.copy_size(rt, t, &name)?;
    Some(name)
}
