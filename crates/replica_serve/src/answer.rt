//! One call of a client, answered on a replica.

ghost use Rattle.std.specs.Prelude.{◌≡◌, ◌+◌, ◌++◌, ◌≤◌, OnOk};
ghost use Rattle.frame_stream.specs.Replies.{reply_frame};
ghost use Rattle.volume_model.specs.declared.call.Call.TheVariants.{Read, Write};
ghost use Rattle.replica_serve.specs.Answers.{answer_on, disk_past, IsOfFrame};

use crate::volume_bytes::{append_bytes, put_bytes};
use client_input::{append_head, append_refusal};
use frame_stream::RESPONSE;
use frame_wire::Head;
use replica_node::ReplicaNode;
use std::alloc::{AllocError, Global};
use vol_units::{LONGEST_CALL, place_within};
use volume_model::{Call, Refusal};

/// Does the call that a frame with this header asks, and appends the frame that replies.
pub(crate) fn answer_call(
    alloc: Global,
    node: &mut ReplicaNode,
    asked: &Head,
    call: &Call,
    into: &mut Vec<u8>,
) -> Result<(), AllocError>
    requires { IsOfFrame call.now }
    ensures reply { OnOk result (into.new.items
        ≡ into.old.items ++ reply_frame asked.now call.now (answer_on node.old.disk call.now)) }
    ensures disk { OnOk result (node.new.disk ≡ disk_past node.old.disk call.now) }
{
    match call {
        Call::Read { offset, length } => read(node, asked, *offset, *length, into),
        Call::Write { offset, bytes } => write(alloc, node, asked, *offset, bytes.as_slice(), into),
        Call::Ping => append_head(asked, RESPONSE, 0, 0, into),
        Call::Other(_) => append_refusal(asked, Refusal::Unsupported, into),
        Call::Command(_) => unreachable!(),
    }
}

/// Replies with the bytes of a range, if it is one and not too long.
fn read(
    node: &ReplicaNode,
    asked: &Head,
    offset: i64,
    length: u32,
    into: &mut Vec<u8>,
) -> Result<(), AllocError>
    ensures reply { OnOk result (into.new.items
        ≡ into.old.items ++ reply_frame asked.now (Read offset length) (answer_on node.now.disk (Read offset length))) }
    ensures disk { node.now.disk ≡ disk_past node.now.disk (Read offset length) }
{
    if length > LONGEST_CALL {
        return append_refusal(asked, Refusal::TooLong, into);
    }
    let count = length as usize;
    let Some(at) = place_within(offset, count, node.size()) else {
        return append_refusal(asked, Refusal::OutOfRange, into);
    };
    append_head(asked, RESPONSE, length, length, into)?;
    append_bytes(node, at, count, into)
}

/// Puts bytes at a range, if it is one.
fn write(
    alloc: Global,
    node: &mut ReplicaNode,
    asked: &Head,
    offset: i64,
    bytes: &[u8],
    into: &mut Vec<u8>,
) -> Result<(), AllocError>
    ensures reply { OnOk result (into.new.items
        ≡ into.old.items ++ reply_frame asked.now (Write offset bytes.now) (answer_on node.old.disk (Write offset bytes.now))) }
    ensures disk { OnOk result (node.new.disk ≡ disk_past node.old.disk (Write offset bytes.now)) }
{
    let Some(at) = place_within(offset, bytes.len(), node.size()) else {
        return append_refusal(asked, Refusal::OutOfRange, into);
    };
    put_bytes(alloc, node, at, bytes)?;
    append_head(asked, RESPONSE, bytes.len() as u32, 0, into)
}
