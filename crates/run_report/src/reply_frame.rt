ghost use Rattle.std.specs.Prelude.{◌≡◌, ◌++◌, OnOk, OnErr};
ghost use Rattle.std.specs.Int.{w32, to_le_bytes};
ghost use Rattle.frame_stream.specs.Replies.{error_text, reply_kind, reply_body, reply_size, reply_head, head_bytes};
ghost use Rattle.packed_entries.specs.View.{answer_seen, call_seen, reply_seen, list_seen};
ghost use Rattle.run_report.specs.Summary.{replying_frame};

use crate::list::digest_list;
use crate::words::append_error;
use digest::Digest;
use frame_stream::{ERROR, RESPONSE};
use frame_wire::{HEADER_LENGTH, Head, encode_header};
use packed_entries::{AnswerView, CallView, ListView, ReplyView};
use std::alloc::{AllocError, Global};

/// Adds the frame that replies to a frame with this header, which asked what was answered: its header, and the data as it
/// lies there.
pub fn digest_reply(
    alloc: Global,
    asked: &Head,
    answer: &AnswerView<'_>,
    digest: &mut Digest,
) -> Result<(), AllocError>
    ensures ok { OnOk result (digest.new ≡ digest.old ++ replying_frame asked.now (answer_seen answer.now)) }
    ensures err { OnErr result (digest.new ≡ digest.old) }
{
    // An error's text is made aside. There is none in most replies.
    let mut error = Vec::new(alloc);
    append_error(&answer.reply, &mut error)?;
    let body = body_of(&answer.reply, &error);
    digest.add(&header_of(asked, answer, &body));
    digest_list(&body, digest);
    Ok(())
}

/// The header of that frame, which has this data.
fn header_of(asked: &Head, answer: &AnswerView<'_>, body: &ListView<'_>) -> [u8; HEADER_LENGTH]
    requires { list_seen body.now ≡ reply_body (reply_seen answer.now.reply) }
    ensures { result ≡ head_bytes
        (reply_head asked.now (call_seen answer.now.call) (reply_seen answer.now.reply)) }
{
    let size = in_header(size_of(answer, body));
    let len = in_header(body.len() as u64);
    encode_header(&head_behind(asked, kind_of(&answer.reply), size, len))
}

/// A header with the seq and the offset of another.
fn head_behind(asked: &Head, kind: u32, size: u32, len: u32) -> Head
    ensures { result ≡ record asked.now { kind = kind; size = size; len = len } }
{
    Head {
        kind,
        size,
        len,
        ..*asked
    }
}

/// What a header says of a count: as many of its bytes as there is room for, the lowest.
fn in_header(count: u64) -> u32
    ensures { to_le_bytes w32 result ≡ to_le_bytes w32 count }
{
    (count % 0x1_0000_0000) as u32
}

/// The type of the frame that replies.
pub(crate) fn kind_of(reply: &ReplyView<'_>) -> u32
    ensures { result ≡ reply_kind (reply_seen reply.now) }
{
    match reply {
        ReplyView::Done | ReplyView::Read(_) | ReplyView::Status { .. } => RESPONSE,
        ReplyView::Refused(_) | ReplyView::Aborted(_) => ERROR,
    }
}

/// What the size of the frame says: the bytes that a write put, and else the length of its data.
pub(crate) fn size_of(answer: &AnswerView<'_>, body: &ListView<'_>) -> u64
    requires { list_seen body.now ≡ reply_body (reply_seen answer.now.reply) }
    ensures { result ≡ reply_size (call_seen answer.now.call) (reply_seen answer.now.reply) }
{
    match (&answer.call, &answer.reply) {
        (CallView::Write { bytes, .. }, ReplyView::Done) => bytes.len() as u64,
        _ => body.len() as u64,
    }
}

/// The data of the frame, the text of an error being at hand.
pub(crate) fn body_of<'a>(reply: &ReplyView<'a>, error: &'a [u8]) -> ListView<'a>
    requires { error.now ≡ error_text (reply_seen reply.now) }
    ensures { list_seen result ≡ reply_body (reply_seen reply.now) }
{
    match reply {
        ReplyView::Read(bytes) => bytes.again(),
        _ => ListView::Whole(error),
    }
}
