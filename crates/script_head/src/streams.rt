//! The items of `streams`. One that is no stream makes the member a bad one.

ghost use Rattle.std.specs.Prelude.{◌≡◌, ◌↔◌, ◌≤◌, IsTrue, Some, length, count_by};
ghost use Rattle.serde_json.specs.View.{view, items_view};
ghost use Rattle.script_head.specs.Refusals.{Reads};
ghost use Rattle.script_head.specs.Limits.{most_calls, most_input};
ghost use Rattle.script_head.specs.Members.{IsCommandItem, IsStreamItem, backs_up, has_backup};
ghost use Rattle.volume_model.specs.Commands.{NamesReplica};
ghost use Rattle.volume_model.specs.Modes.{asks_store};
ghost use Rattle.volume_model.specs.declared.call.Call.TheVariants as call;
ghost use Rattle.script_head.specs.Values.{whole, AreItems, HasItems};

use crate::error::HeadError;
use crate::head::StreamHead;
use crate::limits::{MOST_CALLS, MOST_INPUT};
use crate::member::Member;
use serde_json::Value;
use std::alloc::Global;
use volume_model::{Command, Sequence};

const BAD: HeadError = HeadError::BadMember(Member::Streams);

pub(crate) fn streams_from(
    alloc: Global,
    items: &[Value],
    replicas: u8,
) -> Result<Sequence<StreamHead>, HeadError>
    ensures { Reads Member.Streams (AreItems (IsStreamItem replicas) (items_view items.now)) result }
{
    let mut streams = Vec::new(alloc);
    for item in items {
        streams.push(stream_of(alloc, item, replicas)?)?;
    }
    Ok(Sequence::of(streams))
}

fn stream_of(alloc: Global, item: &Value, replicas: u8) -> Result<StreamHead, HeadError>
    ensures { Reads Member.Streams (IsStreamItem replicas (view item.now)) result }
{
    match (item.get("frames"), item.get("control")) {
        (Some(frames), None) => Ok(StreamHead::Frames(bytes_of(frames)?)),
        (None, Some(control)) => Ok(StreamHead::Control(commands_in(alloc, control, replicas)?)),
        _ => Err(BAD),
    }
}

/// How many bytes of frames.
fn bytes_of(frames: &Value) -> Result<u64, HeadError>
    ensures { Reads Member.Streams
        (λ count. (whole (view frames.now) ≡ Some count) × (count ≤ most_input)) result }
{
    match frames.as_u64() {
        Some(count) if count <= MOST_INPUT as u64 => Ok(count),
        _ => Err(BAD),
    }
}

fn commands_in(alloc: Global, control: &Value, replicas: u8) -> Result<Sequence<Command>, HeadError>
    ensures { Reads Member.Streams
        (λ commands. HasItems (IsCommandItem replicas) (Some (view control.now)) commands
        × (length commands ≤ most_calls)) result }
{
    let items = control.as_array().ok_or(BAD)?;
    // Too long a list is refused before memory is taken for it.
    if items.len() > MOST_CALLS {
        return Err(BAD);
    }
    commands_from(alloc, items, replicas)
}

fn commands_from(
    alloc: Global,
    items: &[Value],
    replicas: u8,
) -> Result<Sequence<Command>, HeadError>
    ensures { Reads Member.Streams (AreItems (IsCommandItem replicas) (items_view items.now)) result }
{
    let mut commands = Vec::new(alloc);
    for item in items {
        commands.push(command_of(item, replicas)?)?;
    }
    Ok(Sequence::of(commands))
}

fn command_of(item: &Value, replicas: u8) -> Result<Command, HeadError>
    ensures { Reads Member.Streams (IsCommandItem replicas (view item.now)) result }
{
    let text = item.as_str().ok_or(BAD)?;
    match Command::read(text.as_bytes()) {
        Ok(command) if names_replica(&command, replicas) => Ok(command),
        _ => Err(BAD),
    }
}

/// Whether the command is of no replica, or of one that is there.
fn names_replica(command: &Command, replicas: u8) -> bool
    ensures { IsTrue result ↔ NamesReplica replicas command.now }
{
    match command {
        Command::Fail(replica) | Command::Add(replica) => *replica < replicas,
        _ => true,
    }
}

/// How many of the streams have backups.
pub(crate) fn backup_count(streams: &[StreamHead]) -> usize
    ensures { result ≡ count_by backs_up streams.now }
{
    streams.iter().filter(|stream| stream.backs_up()).count()
}

/// Whether a backup is among the commands.
pub(crate) fn has_backup(commands: &[Command]) -> bool
    ensures { result ≡ has_backup commands.now }
{
    commands.iter().any(|command| is_backup(command))
}

fn is_backup(command: &Command) -> bool
    ensures { result ≡ asks_store (call.Command command.now) }
{
    matches!(command, Command::Backup { .. })
}
