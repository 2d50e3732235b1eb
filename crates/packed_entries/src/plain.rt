//! What is kept of the answers that there are most of.

ghost use Rattle.std.specs.Prelude.{◌≡◌, ℕ, List, [], MatchOption, IsTrue};
ghost use Rattle.packed_entries.specs.Plain.{data_of, data_in, list_read, is_short, reply_of, IsPlainOf};

use packed_bytes::Place;
use volume_model::{Answer, Call, Entry, Refusal, Reply};

/// What was asked.
#[derive(Clone, Copy, Debug)]
pub(crate) enum Asked {
    Read,
    Write,
    Ping,
    Other,
}

/// What was answered.
#[derive(Clone, Copy, Debug)]
pub(crate) enum Answered {
    Done,
    Read,
    Refused(Refusal),
}

/// An answer to a call of a client, of which at most one list is kept.
#[derive(Clone, Copy, Debug)]
pub(crate) struct Plain {
    pub(crate) index: u64,
    pub(crate) saw: u64,
    pub(crate) offset: i64,
    /// The list that was written, or read.
    pub(crate) place: Place,
    /// The length of a read, or the type of another call.
    pub(crate) number: u32,
    pub(crate) stream: u8,
    pub(crate) asked: Asked,
    pub(crate) answered: Answered,
}

/// The list of an entry that is packed.
pub(crate) fn data_of(entry: &Entry) -> &[u8]
    ensures { result.now ≡ data_of entry.now }
{
    match entry {
        Entry::Answer(answer) => data_in(&answer.call, &answer.reply),
        Entry::Mark(_) => &[],
    }
}

fn data_in<'a>(call: &'a Call, reply: &'a Reply) -> &'a [u8]
    ensures { result.now ≡ data_in call.now reply.now }
{
    match (call, reply) {
        (Call::Write { bytes, .. }, Reply::Done | Reply::Refused(_)) => bytes.as_slice(),
        (Call::Read { .. } | Call::Ping | Call::Other(_), Reply::Read(bytes)) => bytes.as_slice(),
        _ => &[],
    }
}

/// What is kept of an entry whose list stands there, if it is such an answer.
pub(crate) fn plain_of(entry: &Entry, place: Place) -> Option<Plain>
    ensures { MatchOption result (data_of entry.now ≡ []) (IsPlainOf entry.now place) }
{
    match entry {
        Entry::Answer(answer) => plain_in(answer, place),
        Entry::Mark(_) => None,
    }
}

fn plain_in(answer: &Answer, place: Place) -> Option<Plain>
    ensures { MatchOption result (data_in answer.now.call answer.now.reply ≡ [])
        (IsPlainOf (Entry.Answer answer.now) place) }
{
    match &answer.call {
        Call::Read { offset, length } => {
            let answered = answered_of(&answer.reply)?;
            Some(made_of(answer, place, Asked::Read, *offset, *length, answered))
        }
        Call::Write { offset, .. } => {
            let answered = answered_shortly(&answer.reply)?;
            Some(made_of(answer, place, Asked::Write, *offset, 0, answered))
        }
        Call::Ping => {
            let answered = answered_of(&answer.reply)?;
            Some(made_of(answer, place, Asked::Ping, 0, 0, answered))
        }
        Call::Other(kind) => {
            let answered = answered_of(&answer.reply)?;
            Some(made_of(answer, place, Asked::Other, 0, *kind, answered))
        }
        Call::Command(_) => None,
    }
}

fn made_of(
    answer: &Answer,
    place: Place,
    asked: Asked,
    offset: i64,
    number: u32,
    answered: Answered,
) -> Plain
    ensures { result ≡ record {
      index = answer.now.index;
      saw = answer.now.saw;
      offset = offset;
      place = place;
      number = number;
      stream = answer.now.stream;
      asked = asked;
      answered = answered;
    } }
{
    Plain {
        index: answer.index,
        saw: answer.saw,
        offset,
        place,
        number,
        stream: answer.stream,
        asked,
        answered,
    }
}

/// What was answered, if it is such an answer.
fn answered_of(reply: &Reply) -> Option<Answered>
    ensures { MatchOption result (list_read reply.now ≡ [])
        (λ a. (list : List ℕ) → list ≡ list_read reply.now → reply_of a list ≡ reply.now) }
{
    match reply {
        Reply::Done => Some(Answered::Done),
        Reply::Read(_) => Some(Answered::Read),
        Reply::Refused(refusal) => Some(Answered::Refused(*refusal)),
        Reply::Status { .. } | Reply::Aborted(_) => None,
    }
}

/// The same, where it gave no list.
fn answered_shortly(reply: &Reply) -> Option<Answered>
    ensures { MatchOption result (IsTrue (is_short reply.now) → ⊥)
        (λ a. IsTrue (is_short reply.now) × ((list : List ℕ) → reply_of a list ≡ reply.now)) }
{
    match reply {
        Reply::Done => Some(Answered::Done),
        Reply::Refused(refusal) => Some(Answered::Refused(*refusal)),
        Reply::Read(_) | Reply::Status { .. } | Reply::Aborted(_) => None,
    }
}
