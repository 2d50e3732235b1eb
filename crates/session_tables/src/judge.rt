//! A joined journal is judged, call by call, against a plain disk.

use crate::calls::{CALLS, SIZE, call_of};
use journal_book::{AnswerView, CallView, EntryView, Journal, ListView, Mode, ReplyView};
use plain_disk::PlainDisk;
use session_serve::{Call, Reply};
use std::alloc::{AllocError, Global};
use std::process::Abort;
use std::test::Fail;

/// Each entry of the journal is the next call of its session, which saw no more than there was, with the reply that a
/// plain disk gives behind those before it.
pub fn judge<R: Abort>(rt: &R, alloc: Global, journal: &Journal) -> Result<(), Fail> {
    let mut disk = PlainDisk::zeros(alloc, SIZE as usize)?;
    let mut next = [0, 0];
    let mut behind = [0, 0];
    for place in 0..journal.len() {
        let EntryView::Answer(answer) = journal.entry(place) else {
            panic!(rt; "a mark at {place}");
        };
        let session = answer.stream as usize;
        assert!(rt; session < 2, "stream {session} at {place}");
        let index = next[session];
        assert!(rt; answer.index == index, "index at {place}");
        assert!(rt;
            behind[session] <= answer.saw && answer.saw <= place,
            "seen at {place}"
        );
        judge_one(rt, alloc, &mut disk, &answer, index)?;
        next[session] = index.wrapping_add(1);
        behind[session] = place.wrapping_add(1);
    }
    assert!(rt; next == [CALLS, CALLS]);
    Ok(())
}

fn judge_one<R: Abort>(
    rt: &R,
    alloc: Global,
    disk: &mut PlainDisk,
    answer: &AnswerView<'_>,
    index: u64,
) -> Result<(), AllocError> {
    let call = call_of(alloc, answer.stream, index)?;
    assert!(rt; is_call(&answer.call, &call), "call {index}");
    assert!(rt; disk.head_number() < 9);
    let reply = disk.step(alloc, &[Mode::Rw], &call)?;
    assert!(rt; is_reply(&answer.reply, &reply), "reply {index}");
    Ok(())
}

fn is_call(seen: &CallView<'_>, call: &Call) -> bool {
    match (seen, call) {
        (
            CallView::Read { offset, length },
            Call::Read {
                offset: from,
                length: many,
            },
        ) => offset == from && length == many,
        (
            CallView::Write { offset, bytes },
            Call::Write {
                offset: from,
                bytes: all,
            },
        ) => offset == from && is_list(bytes, all.as_slice()),
        (CallView::Ping, Call::Ping) => true,
        (CallView::Other(kind), Call::Other(wanted)) => kind == wanted,
        _ => false,
    }
}

fn is_reply(seen: &ReplyView<'_>, reply: &Reply) -> bool {
    match (seen, reply) {
        (ReplyView::Done, Reply::Done) => true,
        (ReplyView::Read(bytes), Reply::Read(all)) => is_list(bytes, all.as_slice()),
        (ReplyView::Refused(why), Reply::Refused(wanted)) => why == wanted,
        _ => false,
    }
}

fn is_list(seen: &ListView<'_>, bytes: &[u8]) -> bool {
    let mut left = bytes;
    for (byte, count) in seen.runs() {
        if left.len() < count {
            return false;
        }
        let (front, back) = left.split_at(count);
        if front.iter().any(|b| *b != byte) {
            return false;
        }
        left = back;
    }
    left.is_empty()
}
