//! The reply to a call is read from the journal.

ghost use Rattle.std.specs.Prelude.{◌≡◌, [], MatchOption, vec_capacity};
ghost use Rattle.packed_entries.specs.View.{reply_seen, answer_seen, entry_seen};
ghost use Rattle.stream_steps.specs.Steps.{IsFrameCall};
ghost use Rattle.volume_core.specs.Sound.{IsSound};
ghost use Rattle.volume_model.specs.declared.call.Call.{Call};
ghost use Rattle.world_holder.specs.View.{view, IsFree};
ghost use Rattle.session_serve.specs.Replies.{IsLastOf, HasNoAnswer, IsNoAnswer, EndsWithCall, IsLastReply};
ghost use Rattle.session_serve.specs.Replies.{HasRoomFor, HasPlaceFor, HasPlaceForLast};

use crate::copy::copied;
use journal_book::{AnswerView, EntryView, Journal, ReplyView};
use std::sync::Wait;
use volume_model::{Entry, Reply, Sequence};
use world_holder::Holder;

/// The reply to the call that the stream was answered last, in room that was made for it. It takes one turn, in which
/// nothing is done, and no memory.
pub(crate) fn last_reply<R: Wait, H: Holder>(
    rt: &R,
    holder: &mut H,
    stream: u8,
    room: Vec<u8>,
) -> Reply
    requires rests { H.rests holder.old stream }
    requires empty { room.items ≡ [] }
    requires asked { (c : Call) × IsFrameCall c × HasRoomFor c (vec_capacity room)
        × EndsWithCall stream c (view H.alone stream (H.seen holder.old)).entries }
    ensures rests { H.rests holder.new stream }
    ensures home { H.home holder.new ≡ H.home holder.old }
    ensures same { view H.alone stream (H.seen holder.new) ≡ view H.alone stream (H.seen holder.old) }
    ensures free { IsFree stream (H.seen holder.old) → IsFree stream (H.seen holder.new) }
    ensures sound { IsSound (H.seen holder.new) }
    ensures reply { IsLastReply stream result (H.seen holder.new).book.entries }
{
    let world = holder.take(rt, stream);
    let reply = reply_in(&world.journal, stream, room);
    holder.put(stream, world);
    reply
}

/// The same of a journal.
fn reply_in(journal: &Journal, stream: u8, room: Vec<u8>) -> Reply
    requires empty { room.items ≡ [] }
    requires place { HasPlaceForLast stream (vec_capacity room) journal.now.entries }
    ensures { IsLastReply stream result journal.now.entries }
{
    match last_answer(journal, stream) {
        Some(answer) => reply_of(answer.reply, room),
        None => unreachable!(),
    }
}

/// The last answer of the stream in the journal, if it has one.
fn last_answer(journal: &Journal, stream: u8) -> Option<AnswerView<'_>>
    ensures { MatchOption result (HasNoAnswer stream journal.now.entries)
        (λ answer. IsLastOf stream (answer_seen answer) journal.now.entries) }
{
    let mut place = journal.len();
    while place > 0 {
        place -= 1;
        if let Some(answer) = own_answer(journal.entry(place), stream) {
            return Some(answer);
        }
    }
    None
}

/// The answer that the entry is, if it is one of the stream.
fn own_answer<'a>(seen: EntryView<'a>, stream: u8) -> Option<AnswerView<'a>>
    ensures { MatchOption result (IsNoAnswer stream (entry_seen seen.entry))
        (λ answer. (entry_seen seen.entry ≡ Entry.Answer (answer_seen answer)) × (answer.stream ≡ stream)) }
{
    match seen {
        EntryView::Answer(answer) if answer.stream == stream => Some(answer),
        _ => None,
    }
}

/// The reply, in room that was made for it.
fn reply_of(reply: ReplyView<'_>, room: Vec<u8>) -> Reply
    requires empty { room.items ≡ [] }
    requires place { HasPlaceFor (vec_capacity room) (reply_seen reply) }
    ensures { result ≡ reply_seen reply.entry }
{
    match reply {
        ReplyView::Done => Reply::Done,
        ReplyView::Read(bytes) => Reply::Read(Sequence::of(copied(&bytes, room))),
        ReplyView::Refused(why) => Reply::Refused(why),
        ReplyView::Status { .. } | ReplyView::Aborted(_) => unreachable!(),
    }
}
