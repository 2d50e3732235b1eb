ghost use Rattle.std.specs.Prelude.{◌≡◌, ◌≤◌, ◌++◌, ◌∷◌, [], OnOk, OnErr, take, drop, length, codes};
ghost use Rattle.std.specs.Fmt.{decimal, signed_decimal};
ghost use Rattle.run_report.specs.Lines.{word, entry_line, answer_line, place_words, call_text, reply_text};
ghost use Rattle.volume_model.specs.declared.call.Call.TheVariants as call;
ghost use Rattle.volume_model.specs.declared.call.Reply.TheVariants as reply;
ghost use Rattle.packed_entries.specs.View.{entry_seen, answer_seen, call_seen, reply_seen};

use crate::gathered::{NUMBER, OFFSET, put_bytes, put_number, put_offset};
use crate::list::print_list;
use crate::mark_line::append_mark;
use crate::words::{append_error, append_modes, append_number, whole_or_none};
use packed_entries::{AnswerView, CallView, EntryView, ReplyView};
use std::alloc::AllocError;
use volume_model::Mode;

/// Room for the words of a place; and behind them for those of a read, of a write before its bytes, and of a ping.
const PLACE_ROOM: usize = 4 * NUMBER;

const READ_ROOM: usize = PLACE_ROOM + 5 + OFFSET + NUMBER;

const WRITE_ROOM: usize = PLACE_ROOM + 6 + OFFSET + NUMBER;

const PING_ROOM: usize = PLACE_ROOM + 5;

/// Appends the line of the entry at a place of the journal.
pub fn print_entry(place: u64, entry: &EntryView<'_>, into: &mut Vec<u8>) -> Result<(), AllocError>
    ensures ok { OnOk result (into.new.items ≡ into.old.items ++ entry_line place (entry_seen entry.now)) }
    ensures err { OnErr result (into.new.items ≡ into.old.items) }
{
    let start = into.len();
    let printed = match entry {
        EntryView::Answer(answer) => append_answer(place, answer, into),
        EntryView::Mark(mark) => append_mark(place, mark, into),
    };
    whole_or_none(printed, start, into)
}

fn append_answer(place: u64, answer: &AnswerView<'_>, into: &mut Vec<u8>) -> Result<(), AllocError>
    ensures ok { OnOk result (into.new.items ≡ into.old.items ++ answer_line place (answer_seen answer.now)) }
    ensures kept { take (length into.old.items) into.new.items ≡ into.old.items }
{
    append_asked(place, answer, into)?;
    append_answered(&answer.reply, into)
}

/// Appends the words of the place, the call and a space. What stands before a list of bytes is appended at once.
fn append_asked(place: u64, answer: &AnswerView<'_>, into: &mut Vec<u8>) -> Result<(), AllocError>
    ensures ok { OnOk result (into.new.items ≡ into.old.items ++ place_words place (answer_seen answer.now)
        ++ word (call_text (call_seen answer.now.call))) }
    ensures kept { take (length into.old.items) into.new.items ≡ into.old.items }
{
    match &answer.call {
        CallView::Read { offset, length } => append_read(place, answer, *offset, *length, into),
        CallView::Write { offset, bytes } => {
            append_write(place, answer, *offset, bytes.len() as u64, into)?;
            print_list(bytes, into)?;
            into.push(b' ')?;
            Ok(())
        }
        CallView::Ping => append_ping(place, answer, into),
        CallView::Other(kind) => {
            append_place(place, answer, into)?;
            append_other(*kind, into)
        }
        CallView::Command(command) => {
            append_place(place, answer, into)?;
            command.append_to(into)?;
            into.push(b' ')?;
            Ok(())
        }
    }
}

/// Puts the words of a place before what begins at `end`, and says where they begin.
fn put_place(place: u64, answer: &AnswerView<'_>, text: &mut [u8], end: usize) -> usize
    requires room { PLACE_ROOM ≤ end }
    requires within { end ≤ length text.old }
    ensures start { result ≤ end }
    ensures written { drop result text.new ≡ place_words place (answer_seen answer.now) ++ drop end text.old }
{
    let index = put_number(answer.index, text, end);
    let stream = put_number(u64::from(answer.stream), text, index);
    let saw = put_number(answer.saw, text, stream);
    put_number(place, text, saw)
}

fn append_place(place: u64, answer: &AnswerView<'_>, into: &mut Vec<u8>) -> Result<(), AllocError>
    ensures ok { OnOk result (into.new.items ≡ into.old.items ++ place_words place (answer_seen answer.now)) }
    ensures kept { take (length into.old.items) into.new.items ≡ into.old.items }
{
    let mut text = [0; PLACE_ROOM];
    let start = put_place(place, answer, &mut text, PLACE_ROOM);
    into.extend_from_slice(&text[start..])
}

fn append_ping(place: u64, answer: &AnswerView<'_>, into: &mut Vec<u8>) -> Result<(), AllocError>
    ensures ok { OnOk result (into.new.items ≡ into.old.items ++ place_words place (answer_seen answer.now)
        ++ codes "ping ") }
    ensures kept { take (length into.old.items) into.new.items ≡ into.old.items }
{
    let mut text = [0; PING_ROOM];
    let ping = put_bytes(b"ping ", &mut text, PING_ROOM);
    let start = put_place(place, answer, &mut text, ping);
    into.extend_from_slice(&text[start..])
}

fn append_read(
    place: u64,
    answer: &AnswerView<'_>,
    offset: i64,
    count: u32,
    into: &mut Vec<u8>,
) -> Result<(), AllocError>
    ensures ok { OnOk result (into.new.items ≡ into.old.items ++ place_words place (answer_seen answer.now)
        ++ codes "read " ++ word (signed_decimal offset) ++ word (decimal count)) }
    ensures kept { take (length into.old.items) into.new.items ≡ into.old.items }
{
    let mut text = [0; READ_ROOM];
    let count = put_number(u64::from(count), &mut text, READ_ROOM);
    let offset = put_offset(offset, &mut text, count);
    let read = put_bytes(b"read ", &mut text, offset);
    let start = put_place(place, answer, &mut text, read);
    into.extend_from_slice(&text[start..])
}

/// Appends what stands before the bytes of a write.
fn append_write(
    place: u64,
    answer: &AnswerView<'_>,
    offset: i64,
    count: u64,
    into: &mut Vec<u8>,
) -> Result<(), AllocError>
    ensures ok { OnOk result (into.new.items ≡ into.old.items ++ place_words place (answer_seen answer.now)
        ++ codes "write " ++ word (signed_decimal offset) ++ word (decimal count)) }
    ensures kept { take (length into.old.items) into.new.items ≡ into.old.items }
{
    let mut text = [0; WRITE_ROOM];
    let count = put_number(count, &mut text, WRITE_ROOM);
    let offset = put_offset(offset, &mut text, count);
    let write = put_bytes(b"write ", &mut text, offset);
    let start = put_place(place, answer, &mut text, write);
    into.extend_from_slice(&text[start..])
}

fn append_other(kind: u32, into: &mut Vec<u8>) -> Result<(), AllocError>
    ensures ok { OnOk result (into.new.items ≡ into.old.items ++ word (call_text (call.Other kind))) }
    ensures kept { take (length into.old.items) into.new.items ≡ into.old.items }
{
    into.extend_from_slice(b"other ")?;
    append_number(u64::from(kind), into)
}

/// Appends the reply, and ends the line.
fn append_answered(reply: &ReplyView<'_>, into: &mut Vec<u8>) -> Result<(), AllocError>
    ensures ok { OnOk result (into.new.items ≡ into.old.items ++ reply_text (reply_seen reply.now) ++ 10 ∷ []) }
    ensures kept { take (length into.old.items) into.new.items ≡ into.old.items }
{
    if let ReplyView::Done = reply {
        return into.extend_from_slice(b"ok\n");
    }
    append_reply(reply, into)?;
    into.push(b'\n')?;
    Ok(())
}

fn append_reply(reply: &ReplyView<'_>, into: &mut Vec<u8>) -> Result<(), AllocError>
    ensures ok { OnOk result (into.new.items ≡ into.old.items ++ reply_text (reply_seen reply.now)) }
    ensures kept { take (length into.old.items) into.new.items ≡ into.old.items }
{
    match reply {
        ReplyView::Done => into.extend_from_slice(b"ok"),
        ReplyView::Read(bytes) => {
            into.extend_from_slice(b"ok ")?;
            print_list(bytes, into)
        }
        ReplyView::Status { layers, modes } => append_status(*layers, modes, into),
        ReplyView::Refused(_) | ReplyView::Aborted(_) => {
            into.extend_from_slice(b"error ")?;
            append_error(reply, into)
        }
    }
}

fn append_status(layers: u64, modes: &[Mode], into: &mut Vec<u8>) -> Result<(), AllocError>
    ensures ok { OnOk result (into.new.items ≡ into.old.items ++ reply_text (reply.Status layers modes.now)) }
    ensures kept { take (length into.old.items) into.new.items ≡ into.old.items }
{
    into.extend_from_slice(b"ok layers ")?;
    append_number(layers, into)?;
    into.extend_from_slice(b"modes ")?;
    append_modes(modes, into)
}
