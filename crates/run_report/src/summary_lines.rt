ghost use Rattle.std.specs.Prelude.{◌≡◌, ◌++◌, ◌∷◌, OnOk, OnErr, take, length, map, flat_map};
ghost use Rattle.volume_model.specs.declared.call.Reply.TheVariants as reply;
ghost use Rattle.packed_entries.specs.View.{reply_seen};
ghost use Rattle.run_report.specs.Lines.{reply_text};
ghost use Rattle.run_report.specs.Summary.{stream_line, replies_text, control_line, modes_line, disk_line};

use crate::list::print_list;
use crate::words::{append_error, append_modes, append_number, whole_or_none};
use packed_entries::ReplyView;
use std::alloc::AllocError;
use volume_model::Mode;

/// Appends the line of a stream: the digest of the frames that reply to its frames.
pub fn print_stream(stream: u8, digest: &[u8; 64], into: &mut Vec<u8>) -> Result<(), AllocError>
    ensures ok { OnOk result (into.new.items ≡ into.old.items ++ stream_line stream digest.now) }
    ensures err { OnErr result (into.new.items ≡ into.old.items) }
{
    let start = into.len();
    let printed = append_stream(stream, digest, into);
    whole_or_none(printed, start, into)
}

/// Appends the line of the control stream, whose commands were answered so.
pub fn print_control(replies: &[ReplyView<'_>], into: &mut Vec<u8>) -> Result<(), AllocError>
    ensures ok { OnOk result (into.new.items
        ≡ into.old.items ++ control_line (map reply_seen replies.now)) }
    ensures err { OnErr result (into.new.items ≡ into.old.items) }
{
    let start = into.len();
    let printed = append_control(replies, into);
    whole_or_none(printed, start, into)
}

/// Appends the line of the modes of all replicas.
pub fn print_modes(modes: &[Mode], into: &mut Vec<u8>) -> Result<(), AllocError>
    ensures ok { OnOk result (into.new.items ≡ into.old.items ++ modes_line modes.now) }
    ensures err { OnErr result (into.new.items ≡ into.old.items) }
{
    let start = into.len();
    let printed = append_all_modes(modes, into);
    whole_or_none(printed, start, into)
}

/// Appends the line of the disk: the digest of what the volume reads as.
pub fn print_disk(digest: &[u8; 64], into: &mut Vec<u8>) -> Result<(), AllocError>
    ensures ok { OnOk result (into.new.items ≡ into.old.items ++ disk_line digest.now) }
    ensures err { OnErr result (into.new.items ≡ into.old.items) }
{
    let start = into.len();
    let printed = append_disk(digest, into);
    whole_or_none(printed, start, into)
}

fn append_stream(stream: u8, digest: &[u8; 64], into: &mut Vec<u8>) -> Result<(), AllocError>
    ensures ok { OnOk result (into.new.items ≡ into.old.items ++ stream_line stream digest.now) }
    ensures kept { take (length into.old.items) into.new.items ≡ into.old.items }
{
    into.extend_from_slice(b"stream ")?;
    append_number(u64::from(stream), into)?;
    into.extend_from_slice(digest)?;
    into.push(b'\n')?;
    Ok(())
}

fn append_control(replies: &[ReplyView<'_>], into: &mut Vec<u8>) -> Result<(), AllocError>
    ensures ok { OnOk result (into.new.items
        ≡ into.old.items ++ control_line (map reply_seen replies.now)) }
    ensures kept { take (length into.old.items) into.new.items ≡ into.old.items }
{
    into.extend_from_slice(b"control ")?;
    append_replies(replies, into)?;
    into.push(b'\n')?;
    Ok(())
}

fn append_all_modes(modes: &[Mode], into: &mut Vec<u8>) -> Result<(), AllocError>
    ensures ok { OnOk result (into.new.items ≡ into.old.items ++ modes_line modes.now) }
    ensures kept { take (length into.old.items) into.new.items ≡ into.old.items }
{
    into.extend_from_slice(b"modes ")?;
    append_modes(modes, into)?;
    into.push(b'\n')?;
    Ok(())
}

fn append_disk(digest: &[u8; 64], into: &mut Vec<u8>) -> Result<(), AllocError>
    ensures ok { OnOk result (into.new.items ≡ into.old.items ++ disk_line digest.now) }
    ensures kept { take (length into.old.items) into.new.items ≡ into.old.items }
{
    into.extend_from_slice(b"disk ")?;
    into.extend_from_slice(digest)?;
    into.push(b'\n')?;
    Ok(())
}

/// Appends replies, parted by commas.
fn append_replies(replies: &[ReplyView<'_>], into: &mut Vec<u8>) -> Result<(), AllocError>
    ensures ok { OnOk result (into.new.items
        ≡ into.old.items ++ replies_text (map reply_seen replies.now)) }
    ensures kept { take (length into.old.items) into.new.items ≡ into.old.items }
{
    let [first, rest @ ..] = replies else {
        return Ok(());
    };
    append_reply(first, into)?;
    append_more_replies(rest, into)
}

/// Appends replies that stand behind another.
fn append_more_replies(replies: &[ReplyView<'_>], into: &mut Vec<u8>) -> Result<(), AllocError>
    ensures ok { OnOk result (into.new.items
        ≡ into.old.items ++ flat_map (λ r. 44 ∷ reply_text (reply_seen r)) replies.now) }
    ensures kept { take (length into.old.items) into.new.items ≡ into.old.items }
{
    for reply in replies {
        append_one_more(reply, into)?;
    }
    Ok(())
}

fn append_one_more(reply: &ReplyView<'_>, into: &mut Vec<u8>) -> Result<(), AllocError>
    ensures ok { OnOk result (into.new.items ≡ into.old.items ++ 44 ∷ reply_text (reply_seen reply.now)) }
    ensures kept { take (length into.old.items) into.new.items ≡ into.old.items }
{
    into.push(b',')?;
    append_reply(reply, into)
}

fn append_reply(reply: &ReplyView<'_>, into: &mut Vec<u8>) -> Result<(), AllocError>
    ensures ok { OnOk result (into.new.items ≡ into.old.items ++ reply_text (reply_seen reply.now)) }
    ensures kept { take (length into.old.items) into.new.items ≡ into.old.items }
{
    match reply {
        ReplyView::Done => into.extend_from_slice(b"ok"),
        ReplyView::Read(bytes) => {
            into.extend_from_slice(b"ok ")?;
            print_list(bytes, into)
        }
        ReplyView::Status { layers, modes } => append_status(*layers, modes, into),
        ReplyView::Refused(_) | ReplyView::Aborted(_) => {
            into.extend_from_slice(b"error ")?;
            append_error(reply, into)
        }
    }
}

fn append_status(layers: u64, modes: &[Mode], into: &mut Vec<u8>) -> Result<(), AllocError>
    ensures ok { OnOk result (into.new.items
        ≡ into.old.items ++ reply_text (reply.Status layers modes.now)) }
    ensures kept { take (length into.old.items) into.new.items ≡ into.old.items }
{
    into.extend_from_slice(b"ok layers ")?;
    append_number(layers, into)?;
    into.extend_from_slice(b"modes ")?;
    append_modes(modes, into)
}
