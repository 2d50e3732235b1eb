//! What stands against a command, and how one that has the turn may end.

ghost use Rattle.std.specs.Prelude.{◌≡◌, ◌≢◌, ◌<◌, length, false, true, None};
ghost use Rattle.volume_model.specs.declared.call.Call.TheVariants as call;
ghost use Rattle.volume_model.specs.declared.call.Reply.TheVariants as reply;
ghost use Rattle.volume_model.specs.History.{OfStore, subject_of};
ghost use Rattle.volume_model.specs.Modes.{mode_of};
ghost use Rattle.volume_model.specs.PlainStep.{refusal_of, room_refusal, live_refusal, add_refusal};
ghost use Rattle.open_calls.specs.Maint.{command_at};
ghost use Rattle.volume_core.specs.State.{state_of, told_of, modes_in};
ghost use Rattle.volume_core.specs.Sound.{IsSound};
ghost use Rattle.volume_maint.specs.Places.{IsWholeCommand};
ghost use Rattle.volume_maint.specs.Answers.{refused_in, HasNoRebuild, MayEnd, MayRefuse, MayBeDone, IsGoodBackup, EndsDone, IsReadyFor, AreModesAgainst, FailsByModes, IsAgainstReply, IsModeLeft, WaitsToEnd};

use crate::fold::fold_next;
use step_answers::NextPart;
use vol_units::{LayerName, MOST_LAYERS};
use volume_core::{Command, EndedRebuild, Mode, NotThis, Refusal, Reply, World};

/// What stands against a command, as the journal tells it, the first in the order in which refusals are tried.
pub(crate) fn refusal(world: &World, command: &Command) -> Option<Refusal>
    requires sound { IsSound (state_of world.now) }
    requires asks { IsWholeCommand command.now }
    ensures { result ≡ refused_in (state_of world.now) command.now }
{
    if let Some(why) = volume_refusal(world, command) {
        return Some(why);
    }
    match world.journal.source() {
        Some(_) => None,
        None => Some(Refusal::NoReplica),
    }
}

/// What stands against it in the volume.
fn volume_refusal(world: &World, command: &Command) -> Option<Refusal>
    requires sound { IsSound (state_of world.now) }
    requires asks { IsWholeCommand command.now }
    ensures { result ≡ refusal_of (modes_in (state_of world.now)) (told_of (state_of world.now))
        (call.Command command.now) }
{
    match command {
        Command::Snapshot(name) => {
            if world.journal.used(&LayerName::from(*name)) {
                return Some(Refusal::NameUsed);
            }
            chain_refusal(world)
        }
        Command::Remove(name) | Command::Revert(name) => name_refusal(world, name),
        Command::Backup { snapshot, .. } => name_refusal(world, snapshot),
        Command::Purge => None,
        Command::Add(replica) => replica_refusal(world, *replica),
        Command::Status | Command::Fail(_) => unreachable!(),
    }
}

/// What stands against one layer more.
fn chain_refusal(world: &World) -> Option<Refusal>
    requires { IsSound (state_of world.now) }
    ensures { result ≡ room_refusal (told_of (state_of world.now)).volume }
{
    if world.journal.layers() < MOST_LAYERS as u64 {
        None
    } else {
        Some(Refusal::ChainFull)
    }
}

/// What stands against the rebuild of the replica.
fn replica_refusal(world: &World, replica: u8) -> Option<Refusal>
    requires { IsSound (state_of world.now) }
    ensures { result ≡ add_refusal (mode_of (modes_in (state_of world.now)) replica)
        (told_of (state_of world.now)).volume }
{
    match world.mode(replica) {
        Mode::Rw | Mode::Wo => Some(Refusal::InUse),
        Mode::Err => chain_refusal(world),
    }
}

/// What stands against the use of the snapshot of the name.
fn name_refusal(world: &World, name: &LayerName) -> Option<Refusal>
    requires { IsSound (state_of world.now) }
    ensures { result ≡ live_refusal (told_of (state_of world.now)).volume name.now }
{
    if world.journal.live(name) {
        None
    } else {
        Some(Refusal::NoSuchSnapshot)
    }
}

/// Whether the first command of the turn is in the state that the reply needs.
pub(crate) fn is_ready_for(world: &World, reply: &Reply) -> bool
    requires some { 0 < length world.now.commands.items }
    ensures ready { result ≡ true
        → IsReadyFor (state_of world.now) (command_at world.now.commands.items 0).command reply.now }
    ensures not { result ≡ false
        → IsReadyFor (state_of world.now) (command_at world.now.commands.items 0).command reply.now → ⊥ }
{
    let command = world.commands[0].command;
    match reply {
        Reply::Refused(_) => !has_rebuild(world, &command),
        Reply::Done => ends_done(&command),
        Reply::Aborted(place) => was_aborted(world, &command, *place),
        Reply::Read(_) | Reply::Status { .. } => false,
    }
}

/// Whether it may be answered so where it is ready for that, as far as that shows now.
pub(crate) fn may_end(world: &World, reply: &Reply) -> bool
    requires sound { IsSound (state_of world.now) }
    requires some { 0 < length world.now.commands.items }
    requires ready { IsReadyFor (state_of world.now) (command_at world.now.commands.items 0).command reply.now }
    ensures may { result ≡ true
        → MayEnd (state_of world.now) (command_at world.now.commands.items 0).command reply.now }
    ensures not { result ≡ false
        → MayEnd (state_of world.now) (command_at world.now.commands.items 0).command reply.now
        → WaitsToEnd (state_of world.now) (command_at world.now.commands.items 0).command reply.now }
{
    let command = world.commands[0].command;
    match reply {
        Reply::Refused(why) => may_refuse(world, &command, *why),
        Reply::Done => may_be_done(world, &command),
        Reply::Aborted(_) => true,
        Reply::Read(_) | Reply::Status { .. } => unreachable!(),
    }
}

/// Whether the command ends as done, once it has done all.
fn ends_done(command: &Command) -> bool
    ensures ends { result ≡ true → EndsDone command.now }
    ensures not { result ≡ false → EndsDone command.now → ⊥ }
{
    match command {
        Command::Purge | Command::Backup { .. } => true,
        _ => false,
    }
}

/// Whether the command is refused so: by the volume or for want of a replica, or a backup by what its store has against it,
/// where the volume has nothing.
fn may_refuse(world: &World, command: &Command, why: Refusal) -> bool
    requires sound { IsSound (state_of world.now) }
    requires asks { IsWholeCommand command.now }
    ensures may { result ≡ true → MayRefuse (state_of world.now) command.now why }
    ensures not { result ≡ false → MayRefuse (state_of world.now) command.now why → ⊥ }
{
    if is_of_store(why) {
        return is_good_backup(world, command);
    }
    refusal(world, command) == Some(why)
}

/// Whether the refusal is what a store of backups has against a backup.
fn is_of_store(why: Refusal) -> bool
    ensures yes { result ≡ true → subject_of (reply.Refused why) ≡ OfStore }
    ensures no { result ≡ false → subject_of (reply.Refused why) ≡ OfStore → ⊥ }
{
    match why {
        Refusal::BackupExists | Refusal::BlockDiffers | Refusal::TargetFault => true,
        Refusal::TooLong
        | Refusal::OutOfRange
        | Refusal::Unsupported
        | Refusal::NameUsed
        | Refusal::ChainFull
        | Refusal::NoSuchSnapshot
        | Refusal::NoReplica
        | Refusal::InUse => false,
    }
}

/// Whether the command is a backup of a snapshot that can be used.
fn is_good_backup(world: &World, command: &Command) -> bool
    requires { IsSound (state_of world.now) }
    ensures good { result ≡ true → IsGoodBackup (state_of world.now) command.now }
    ensures not { result ≡ false → IsGoodBackup (state_of world.now) command.now → ⊥ }
{
    match command {
        Command::Backup { snapshot, .. } => name_refusal(world, snapshot).is_none(),
        _ => false,
    }
}

/// Whether the command, which ends as done, may be told done now.
fn may_be_done(world: &World, command: &Command) -> bool
    requires sound { IsSound (state_of world.now) }
    requires ends { EndsDone command.now }
    ensures may { result ≡ true → MayBeDone (state_of world.now) command.now }
    ensures not { result ≡ false → MayBeDone (state_of world.now) command.now
        → (command.now ≡ Command.Purge) × ((state_of world.now).whole ≢ None) }
{
    match command {
        Command::Purge => fold_next(world) == NextPart::Nothing,
        Command::Backup { .. } => is_good_backup(world, command),
        _ => unreachable!(),
    }
}

/// What stands against a reply for which it is ready: the modes, or what the reply says of the volume.
pub(crate) fn why_not(world: &World, reply: &Reply) -> NotThis
    requires sound { IsSound (state_of world.now) }
    requires some { 0 < length world.now.commands.items }
    ensures { IsAgainstReply (state_of world.now) (command_at world.now.commands.items 0).command reply.now result }
{
    let command = world.commands[0].command;
    if fails_by_modes(world, &command, reply) {
        return NotThis::Mode(mode_left(world));
    }
    NotThis::Page
}

/// `RW` where a replica is read, and else `ERR`.
fn mode_left(world: &World) -> Mode
    ensures { IsModeLeft (modes_in (state_of world.now)) result }
{
    match world.journal.source() {
        Some(_) => Mode::Rw,
        None => Mode::Err,
    }
}

/// Whether the modes stand against the reply.
fn fails_by_modes(world: &World, command: &Command, reply: &Reply) -> bool
    ensures fails { result ≡ true → FailsByModes (state_of world.now) command.now reply.now }
    ensures not { result ≡ false → FailsByModes (state_of world.now) command.now reply.now → ⊥ }
{
    match reply {
        Reply::Refused(why) => are_modes_against(world, command, *why),
        Reply::Done => *command == Command::Purge && mode_left(world) == Mode::Err,
        Reply::Aborted(_) | Reply::Read(_) | Reply::Status { .. } => false,
    }
}

fn are_modes_against(world: &World, command: &Command, why: Refusal) -> bool
    ensures against { result ≡ true → AreModesAgainst (state_of world.now) command.now why }
    ensures not { result ≡ false → AreModesAgainst (state_of world.now) command.now why → ⊥ }
{
    match why {
        Refusal::NoReplica => mode_left(world) == Mode::Rw,
        Refusal::InUse => match command {
            Command::Add(replica) => world.mode(*replica) == Mode::Err,
            _ => false,
        },
        Refusal::ChainFull => match command {
            Command::Add(replica) => world.mode(*replica) != Mode::Err,
            _ => false,
        },
        _ => false,
    }
}

/// Whether a rebuild of the command was begun, if it is an add.
fn has_rebuild(world: &World, command: &Command) -> bool
    ensures not { result ≡ false → HasNoRebuild (state_of world.now) command.now }
    ensures has { result ≡ true → HasNoRebuild (state_of world.now) command.now → ⊥ }
{
    match command {
        Command::Add(_) => world.rebuild.is_some() || world.ended.is_some(),
        _ => false,
    }
}

/// Whether the command is an add whose rebuild was aborted, by the mark at that place.
fn was_aborted(world: &World, command: &Command, place: u64) -> bool
    ensures was { result ≡ true → MayEnd (state_of world.now) command.now (reply.Aborted place) }
    ensures not { result ≡ false → MayEnd (state_of world.now) command.now (reply.Aborted place) → ⊥ }
{
    match command {
        Command::Add(replica) => {
            world.ended
                == Some(EndedRebuild {
                    target: *replica,
                    place,
                })
        }
        _ => false,
    }
}
