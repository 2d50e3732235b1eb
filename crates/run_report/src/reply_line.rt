ghost use Rattle.std.specs.Prelude.{◌≡◌, ◌≤◌, ◌++◌, OnOk, OnErr, take, drop, length, codes};
ghost use Rattle.std.specs.Fmt.{decimal};
ghost use Rattle.frame_stream.specs.Replies.{reply_body};
ghost use Rattle.packed_entries.specs.View.{answer_seen, reply_seen, list_seen};
ghost use Rattle.run_report.specs.Lines.{word, reply_line, header_words};

use crate::gathered::{NUMBER, OFFSET, put_bytes, put_number, put_offset};
use crate::list::print_list;
use crate::reply_frame::{body_of, kind_of, size_of};
use crate::words::{append_error, whole_or_none};
use frame_wire::Head;
use packed_entries::{AnswerView, ListView, ReplyView};
use std::alloc::AllocError;

/// Room for the words of a reply before its data, and for a line that has none.
const HEADER_ROOM: usize = 6 + 5 * NUMBER + OFFSET;

const DONE_ROOM: usize = HEADER_ROOM + 2;

/// Appends the line of the reply to a frame with this header, which asked what was answered.
pub fn print_reply(
    asked: &Head,
    answer: &AnswerView<'_>,
    into: &mut Vec<u8>,
) -> Result<(), AllocError>
    ensures ok { OnOk result (into.new.items ≡ into.old.items ++ reply_line asked.now (answer_seen answer.now)) }
    ensures err { OnErr result (into.new.items ≡ into.old.items) }
{
    let start = into.len();
    let printed = append_frame(asked, answer, into);
    whole_or_none(printed, start, into)
}

fn append_frame(asked: &Head, answer: &AnswerView<'_>, into: &mut Vec<u8>) -> Result<(), AllocError>
    ensures ok { OnOk result (into.new.items ≡ into.old.items ++ reply_line asked.now (answer_seen answer.now)) }
    ensures kept { take (length into.old.items) into.new.items ≡ into.old.items }
{
    if let ReplyView::Done = answer.reply {
        return append_done(asked, answer, into);
    }
    // An error's text is made aside, since it is printed as runs.
    let mut error = Vec::new(*into.allocator());
    append_error(&answer.reply, &mut error)?;
    let body = body_of(&answer.reply, &error);
    append_header(asked, answer, &body, into)?;
    print_list(&body, into)?;
    into.push(b'\n')?;
    Ok(())
}

/// Appends that line where there is no data, as most replies have none.
fn append_done(asked: &Head, answer: &AnswerView<'_>, into: &mut Vec<u8>) -> Result<(), AllocError>
    requires { answer.now.reply ≡ ReplyView.Done }
    ensures ok { OnOk result (into.new.items ≡ into.old.items ++ (codes "reply " ++ word (decimal answer.now.stream)
        ++ word (decimal answer.now.index) ++ header_words asked.now (answer_seen answer.now) ++ codes "-\n")) }
    ensures kept { take (length into.old.items) into.new.items ≡ into.old.items }
{
    let mut text = [0; DONE_ROOM];
    let end = put_bytes(b"-\n", &mut text, DONE_ROOM);
    let start = put_header(asked, answer, &ListView::Whole(&[]), &mut text, end);
    into.extend_from_slice(&text[start..])
}

/// Appends the words of that line that stand before its data.
fn append_header(
    asked: &Head,
    answer: &AnswerView<'_>,
    body: &ListView<'_>,
    into: &mut Vec<u8>,
) -> Result<(), AllocError>
    requires { list_seen body.now ≡ reply_body (reply_seen answer.now.reply) }
    ensures ok { OnOk result (into.new.items ≡ into.old.items ++ (codes "reply " ++ word (decimal answer.now.stream)
        ++ word (decimal answer.now.index) ++ header_words asked.now (answer_seen answer.now))) }
    ensures kept { take (length into.old.items) into.new.items ≡ into.old.items }
{
    let mut text = [0; HEADER_ROOM];
    let start = put_header(asked, answer, body, &mut text, HEADER_ROOM);
    into.extend_from_slice(&text[start..])
}

/// Puts them before what begins at `end`, and says where they begin.
fn put_header(
    asked: &Head,
    answer: &AnswerView<'_>,
    body: &ListView<'_>,
    text: &mut [u8],
    end: usize,
) -> usize
    requires body { list_seen body.now ≡ reply_body (reply_seen answer.now.reply) }
    requires room { HEADER_ROOM ≤ end }
    requires within { end ≤ length text.old }
    ensures start { result ≤ end }
    ensures written { drop result text.new ≡ codes "reply " ++ word (decimal answer.now.stream)
        ++ word (decimal answer.now.index) ++ header_words asked.now (answer_seen answer.now) ++ drop end text.old }
{
    let size = put_number(size_of(answer, body), text, end);
    let offset = put_offset(asked.offset, text, size);
    let kind = put_number(u64::from(kind_of(&answer.reply)), text, offset);
    let seq = put_number(u64::from(asked.seq), text, kind);
    let index = put_number(answer.index, text, seq);
    let stream = put_number(u64::from(answer.stream), text, index);
    put_bytes(b"reply ", text, stream)
}
