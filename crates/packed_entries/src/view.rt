ghost use Rattle.std.specs.Prelude.{◌≡◌, ◌<◌, length, All, MatchOption};
ghost use Rattle.std.specs.Iterator.{YieldsFirstBy, item_count};
ghost use Rattle.image_runs.specs.Runs.{run_of, runs};
ghost use Rattle.packed_bytes.specs.Place.{list_at, IsPlace};
ghost use Rattle.packed_entries.specs.Plain.{plain_entry, call_of, reply_of, data_in, data_of};
ghost use Rattle.packed_entries.specs.View.{list_seen, runs_left, call_seen, reply_seen, answer_seen, entry_seen};
ghost use Rattle.volume_model.specs.Marks.{IsMark};

use crate::plain::{Answered, Asked, Plain};
use packed_bytes::{Data, EachRun, PackedList, Place, SliceRuns};
use volume_model::{Answer, Call, Command, Entry, Mark, Mode, Refusal, Reply};

/// A list of an entry.
#[derive(Drop)]
pub enum ListView<'a> {
    Packed(PackedList<'a>),
    Whole(&'a [u8]),
}

impl<'a> ListView<'a> {
    /// The same once more.
    pub fn again(&self) -> ListView<'a>
        ensures { list_seen result ≡ list_seen self.now }
    {
        match self {
            ListView::Packed(list) => ListView::Packed(list.again()),
            ListView::Whole(bytes) => ListView::Whole(bytes),
        }
    }

    pub fn len(&self) -> usize
        ensures { result ≡ length (list_seen self.now) }
    {
        match self {
            ListView::Packed(list) => list.len(),
            ListView::Whole(bytes) => bytes.len(),
        }
    }

    /// Looks at it, and does nothing: that its bytes are bytes, a proof learns here.
    pub fn know(&self)
        ensures { All (λ b. b < 256) (list_seen self.now) }
    {
        match self {
            ListView::Packed(list) => list.know(),
            ListView::Whole(bytes) => know_bytes(bytes),
        }
    }

    /// Its runs, each as long as can be.
    pub fn runs(&self) -> ListRuns<'a>
        ensures { runs_left result ≡ runs (list_seen self.now) }
    {
        match self {
            ListView::Packed(list) => ListRuns::Packed(list.runs()),
            ListView::Whole(bytes) => ListRuns::Whole(SliceRuns::of(bytes)),
        }
    }
}

fn know_bytes(bytes: &[u8])
    ensures { All (λ b. b < 256) bytes.now }
{
    let _length = bytes.len();
}

/// The runs of a list of an entry, one after another, each the byte and its count.
#[derive(Drop)]
pub enum ListRuns<'a> {
    Packed(EachRun<'a>),
    Whole(SliceRuns<'a>),
}

impl<'a> Iterator for ListRuns<'a> {
    type Item = (u8, usize);

    ghost next_gives = { YieldsFirstBy (λ p. run_of p.0 p.1) runs_left };

    ghost remaining = { item_count runs_left };

    fn next(&mut self) -> Option<(u8, usize)> {
        match self {
            ListRuns::Packed(left) => left.next(),
            ListRuns::Whole(left) => left.next(),
        }
    }
}

/// A call of an entry.
#[derive(Drop)]
pub enum CallView<'a> {
    Read { offset: i64, length: u32 },
    Write { offset: i64, bytes: ListView<'a> },
    Ping,
    Other(u32),
    Command(Command),
}

/// A reply of an entry.
#[derive(Drop)]
pub enum ReplyView<'a> {
    Done,
    Read(ListView<'a>),
    Status { layers: u64, modes: &'a [Mode] },
    Refused(Refusal),
    Aborted(u64),
}

/// An answer in the journal.
#[derive(Drop)]
pub struct AnswerView<'a> {
    pub call: CallView<'a>,
    pub reply: ReplyView<'a>,
    pub index: u64,
    pub saw: u64,
    pub stream: u8,
}

/// An entry in the journal.
#[derive(Drop)]
pub enum EntryView<'a> {
    Answer(AnswerView<'a>),
    Mark(&'a Mark),
}

impl<'a> EntryView<'a> {
    /// The answer that the entry is, if it is no mark.
    pub fn into_answer(self) -> Option<AnswerView<'a>>
        ensures { MatchOption result (IsMark (entry_seen self.entry))
            (λ answer. entry_seen self.entry ≡ Entry.Answer (answer_seen answer)) }
    {
        match self {
            EntryView::Answer(answer) => Some(answer),
            EntryView::Mark(_) => None,
        }
    }

    /// What a call wrote, or was given; nothing of a mark.
    pub fn data_list(&self) -> ListView<'a>
        ensures { list_seen result ≡ data_of (entry_seen self.now) }
    {
        match self {
            EntryView::Answer(answer) => data_seen(&answer.call, &answer.reply),
            EntryView::Mark(_) => ListView::Whole(&[]),
        }
    }

    /// The runs of that, each as long as can be.
    pub fn runs(&self) -> ListRuns<'a>
        ensures { runs_left result ≡ runs (data_of (entry_seen self.now)) }
    {
        self.data_list().runs()
    }
}

fn data_seen<'a>(call: &CallView<'a>, reply: &ReplyView<'a>) -> ListView<'a>
    ensures { list_seen result ≡ data_in (call_seen call.now) (reply_seen reply.now) }
{
    match (call, reply) {
        (CallView::Write { bytes, .. }, ReplyView::Done | ReplyView::Refused(_)) => bytes.again(),
        (CallView::Read { .. } | CallView::Ping | CallView::Other(_), ReplyView::Read(bytes)) => {
            bytes.again()
        }
        _ => ListView::Whole(&[]),
    }
}

pub(crate) fn seen_plain<'a>(store: &'a Data, plain: &'a Plain) -> EntryView<'a>
    requires { IsPlace store.now.items plain.now.place }
    ensures { entry_seen result ≡ plain_entry store.now.items plain.now }
{
    EntryView::Answer(AnswerView {
        call: seen_call(store, plain),
        reply: seen_reply(store, plain.place, plain.answered),
        index: plain.index,
        saw: plain.saw,
        stream: plain.stream,
    })
}

fn seen_call<'a>(store: &'a Data, plain: &Plain) -> CallView<'a>
    requires { IsPlace store.now.items plain.now.place }
    ensures { call_seen result ≡ call_of plain.now (list_at store.now.items plain.now.place) plain.now.asked }
{
    match plain.asked {
        Asked::Read => CallView::Read {
            offset: plain.offset,
            length: plain.number,
        },
        Asked::Write => CallView::Write {
            offset: plain.offset,
            bytes: ListView::Packed(PackedList::at(store, plain.place)),
        },
        Asked::Ping => CallView::Ping,
        Asked::Other => CallView::Other(plain.number),
    }
}

fn seen_reply<'a>(store: &'a Data, place: Place, answered: Answered) -> ReplyView<'a>
    requires { IsPlace store.now.items place }
    ensures { reply_seen result ≡ reply_of answered (list_at store.now.items place) }
{
    match answered {
        Answered::Done => ReplyView::Done,
        Answered::Read => ReplyView::Read(ListView::Packed(PackedList::at(store, place))),
        Answered::Refused(refusal) => ReplyView::Refused(refusal),
    }
}

/// An entry that is kept as it is.
pub(crate) fn seen_whole(entry: &Entry) -> EntryView<'_>
    ensures { entry_seen result ≡ entry.now }
{
    match entry {
        Entry::Mark(mark) => EntryView::Mark(mark),
        Entry::Answer(answer) => EntryView::Answer(AnswerView {
            call: whole_call(&answer.call),
            reply: whole_reply(&answer.reply),
            index: answer.index,
            saw: answer.saw,
            stream: answer.stream,
        }),
    }
}

fn whole_call(call: &Call) -> CallView<'_>
    ensures { call_seen result ≡ call.now }
{
    match call {
        Call::Read { offset, length } => CallView::Read {
            offset: *offset,
            length: *length,
        },
        Call::Write { offset, bytes } => CallView::Write {
            offset: *offset,
            bytes: ListView::Whole(bytes.as_slice()),
        },
        Call::Ping => CallView::Ping,
        Call::Other(kind) => CallView::Other(*kind),
        Call::Command(command) => CallView::Command(*command),
    }
}

fn whole_reply(reply: &Reply) -> ReplyView<'_>
    ensures { reply_seen result ≡ reply.now }
{
    match reply {
        Reply::Done => ReplyView::Done,
        Reply::Read(bytes) => ReplyView::Read(ListView::Whole(bytes.as_slice())),
        Reply::Status { layers, modes } => ReplyView::Status {
            layers: *layers,
            modes: modes.as_slice(),
        },
        Reply::Refused(refusal) => ReplyView::Refused(*refusal),
        Reply::Aborted(place) => ReplyView::Aborted(*place),
    }
}
