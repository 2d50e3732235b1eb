ghost use Rattle.serde_json.specs.View.{view};
ghost use Rattle.script_head.specs.Refusals.{Reads};
ghost use Rattle.script_head.specs.Members as spec;

use crate::error::HeadError;
use crate::head::StreamHead;
use crate::limits::{MOST_REPLICAS, MOST_STREAMS};
use crate::member::Member;
use crate::streams::{backup_count, streams_from};
use serde_json::Value;
use std::alloc::Global;
use vol_units::{PlainName, TimeText, VolumeSize};
use volume_model::Sequence;

pub(crate) fn volume_in(line: &Value) -> Result<PlainName, HeadError>
    ensures { Reads Member.Volume (spec.HasVolume (view line.now)) result }
{
    let bad = HeadError::BadMember(Member::Volume);
    let name = line.get("volume").and_then(Value::as_str).ok_or(bad)?;
    PlainName::read(name.as_bytes()).or(Err(bad))
}

pub(crate) fn size_in(line: &Value) -> Result<VolumeSize, HeadError>
    ensures { Reads Member.Size (spec.HasSize (view line.now)) result }
{
    let bad = HeadError::BadMember(Member::Size);
    let size = line.get("size").and_then(Value::as_u64).ok_or(bad)?;
    VolumeSize::new(size).or(Err(bad))
}

pub(crate) fn replicas_in(line: &Value) -> Result<u8, HeadError>
    ensures { Reads Member.Replicas (spec.HasReplicas (view line.now)) result }
{
    match line.get("replicas").and_then(Value::as_u64) {
        Some(count) if 1 <= count && count <= MOST_REPLICAS => Ok(count as u8),
        _ => Err(HeadError::BadMember(Member::Replicas)),
    }
}

/// A member that is true or false, and false where it is missing.
pub(crate) fn flag_in(line: &Value, name: &str, member: Member) -> Result<bool, HeadError>
    ensures { Reads member (spec.HasFlag (view line.now) name.now) result }
{
    match line.get(name) {
        None => Ok(false),
        Some(value) => value.as_bool().ok_or(HeadError::BadMember(member)),
    }
}

pub(crate) fn now_in(alloc: Global, line: &Value) -> Result<TimeText, HeadError>
    ensures { Reads Member.Now (spec.HasNow (view line.now)) result }
{
    let text = match line.get("now") {
        None => "",
        Some(value) => value.as_str().ok_or(HeadError::BadMember(Member::Now))?,
    };
    TimeText::read(alloc, text)?.ok_or(HeadError::BadMember(Member::Now))
}

/// The streams, where there are so many replicas. One of them at most has backups.
pub(crate) fn streams_in(
    alloc: Global,
    line: &Value,
    replicas: u8,
) -> Result<Sequence<StreamHead>, HeadError>
    ensures { Reads Member.Streams (spec.HasStreams (view line.now) replicas) result }
{
    let bad = HeadError::BadMember(Member::Streams);
    let items = line.get("streams").and_then(Value::as_array).ok_or(bad)?;
    if items.is_empty() || items.len() > MOST_STREAMS {
        return Err(bad);
    }
    let streams = streams_from(alloc, items, replicas)?;
    if backup_count(streams.as_slice()) > 1 {
        return Err(bad);
    }
    Ok(streams)
}
