ghost use Rattle.std.specs.Prelude.{◌≡◌, ◌+◌, ◌-◌, ◌^◌, ◌<◌, ◌≤◌, length, sum_by, IfSome, IfNone};
ghost use Rattle.std.specs.Option.{SomeIff};
ghost use Rattle.script_head.specs.Head.{byte_count, command_count};
ghost use Rattle.script_text.specs.Refusals.{IsOtherEnd, AnswersStreamOf, AnswersStreams};
ghost use Rattle.script_head.specs.Limits.{most_calls};

use crate::error::ScriptError;
use crate::script::Stream;
use crate::stream::read_stream;
use frame_stream::Bytes;
use script_head::limits::MOST_CALLS;
use script_head::{Sequence, StreamHead};
use std::alloc::Global;

/// How many bytes the streams have together, if there are so many at most.
fn bytes_within(heads: &[StreamHead], most: usize) -> Option<usize>
    ensures { SomeIff result (sum_by byte_count heads.now ≤ most) (sum_by byte_count heads.now) }
{
    let mut left = most as u64;
    for head in heads {
        let count = head.byte_count();
        if count > left {
            return None;
        }
        left -= count;
    }
    Some(most - left as usize)
}

/// The lesser of the input's end and the streams' end, where these are two. The streams begin at a place
/// of the input, and it has so many bytes from there on.
pub(crate) fn other_end(heads: &[StreamHead], place: u64, len: usize) -> Option<u64>
    requires { place + len < 2 ^ 64 }
    ensures none { IfNone result (sum_by byte_count heads.now ≡ len) }
    ensures some { IfSome result (IsOtherEnd (sum_by byte_count heads.now) place len) }
{
    match bytes_within(heads, len) {
        None => Some(place + len as u64),
        Some(count) if count < len => Some(place + count as u64),
        Some(_) => None,
    }
}

/// How many frames may be calls beside the commands, if these are not too many.
pub(crate) fn room_beside(heads: &[StreamHead]) -> Option<usize>
    ensures { SomeIff result (sum_by command_count heads.now ≤ most_calls)
        (most_calls - sum_by command_count heads.now) }
{
    let mut left = MOST_CALLS as u64;
    for head in heads {
        let count = head.command_count();
        if count > left {
            return None;
        }
        left -= count;
    }
    Some(left as usize)
}

/// The streams whose bytes stand one after another, from a place of the input on. There may be so
/// many calls that are frames.
pub(crate) fn read_streams(
    alloc: Global,
    heads: Sequence<StreamHead>,
    bytes: Bytes,
    room: usize,
    place: u64,
) -> Result<Sequence<Stream>, ScriptError>
    requires whole { sum_by byte_count heads ≡ length bytes }
    requires place { place + length bytes < 2 ^ 64 }
    ensures { AnswersStreams room place heads bytes result }
{
    let end = place + bytes.len() as u64;
    let mut streams = Vec::new(alloc);
    let mut rest = bytes;
    let mut left = room;
    for head in heads.into_vec() {
        let at = end - rest.len() as u64;
        let bytes = rest.split_to(head.byte_count() as usize)?;
        let stream = read_one(alloc, head, bytes, left, at)?;
        left -= stream.frame_count();
        streams.push(stream)?;
    }
    Ok(Sequence::of(streams))
}

/// The stream of a head and of its bytes, which begin at a place of the input.
fn read_one(
    alloc: Global,
    head: StreamHead,
    bytes: Bytes,
    room: usize,
    place: u64,
) -> Result<Stream, ScriptError>
    requires { place + length bytes < 2 ^ 64 }
    ensures { AnswersStreamOf head room place bytes result }
{
    match head {
        StreamHead::Frames(_) => Ok(Stream::Frames(read_stream(alloc, bytes, room, place)?)),
        StreamHead::Control(commands) => Ok(Stream::Control(commands)),
    }
}
