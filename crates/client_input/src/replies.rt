//! Frames that reply to a client.

ghost use Rattle.std.specs.Prelude.{◌≡◌, ◌++◌, length, OnOk};
ghost use Rattle.frame_stream.specs.Asked.{call_of};
ghost use Rattle.frame_stream.specs.Replies.{head_bytes, reply_frame, reply_size};
ghost use Rattle.frame_stream.specs.declared.frame.Frame.{Frame};
ghost use Rattle.volume_model.specs.declared.call.Reply.TheVariants as reply;
ghost use Rattle.client_input.specs.Replies.{IsToFrame, refusal_frame};

use frame_stream::{ERROR, RESPONSE, WRITE};
use frame_wire::{Head, encode_header};
use std::alloc::AllocError;
use volume_model::{Refusal, Reply};

/// Appends the frame that replies so to a frame with this header.
pub fn append_reply(asked: &Head, reply: &Reply, into: &mut Vec<u8>) -> Result<(), AllocError>
    requires { IsToFrame reply.now }
    ensures { (f : Frame) → f.head ≡ asked.now → length f.body ≡ f.head.len
        → OnOk result (into.new.items ≡ into.old.items ++ reply_frame asked.now (call_of f) reply.now) }
{
    match reply {
        Reply::Done => append_head(asked, RESPONSE, written(asked), 0, into),
        Reply::Read(bytes) => {
            let len = bytes.len() as u32;
            append_head(asked, RESPONSE, len, len, into)?;
            into.extend_from_slice(bytes.as_slice())
        }
        Reply::Refused(why) => append_refusal(asked, *why, into),
        Reply::Status { .. } | Reply::Aborted(_) => unreachable!(),
    }
}

/// How many bytes a frame with this header puts.
fn written(asked: &Head) -> u32
    ensures { (f : Frame) → f.head ≡ asked.now → length f.body ≡ f.head.len
        → result ≡ reply_size (call_of f) reply.Done }
{
    if asked.kind == WRITE { asked.len } else { 0 }
}

/// Appends the frame of a refusal, with its text.
pub fn append_refusal(asked: &Head, why: Refusal, into: &mut Vec<u8>) -> Result<(), AllocError>
    ensures { OnOk result (into.new.items ≡ into.old.items ++ refusal_frame asked.now why) }
{
    let text = why.text().as_bytes();
    let len = text.len() as u32;
    append_head(asked, ERROR, len, len, into)?;
    into.extend_from_slice(text)
}

/// Appends the header of the frame that replies to one with this header.
pub fn append_head(
    asked: &Head,
    kind: u32,
    size: u32,
    len: u32,
    into: &mut Vec<u8>,
) -> Result<(), AllocError>
    ensures { OnOk result (into.new.items ≡ into.old.items ++ head_bytes (record asked.now {
      kind = kind;
      size = size;
      len = len;
    })) }
{
    let head = Head {
        kind,
        size,
        len,
        ..*asked
    };
    append_header(&head, into)
}

/// Appends a header.
fn append_header(head: &Head, into: &mut Vec<u8>) -> Result<(), AllocError>
    ensures { OnOk result (into.new.items ≡ into.old.items ++ head_bytes head.now) }
{
    let bytes = encode_header(head);
    into.extend_from_slice(&bytes)?;
    Ok(())
}
