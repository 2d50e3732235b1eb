ghost use Rattle.std.specs.Prelude.{◌≡◌, []};
ghost use Rattle.packed_entries.specs.Plain.{data_of};

use crate::made::without_runs;
use packed_entries::{AnswerView, CallView, EntryView, ListView, PackedEntries, ReplyView};
use std::alloc::{AllocError, Global};
use std::process::Abort;
use std::test::Fail;
use volume_model::{Answer, Bytes, Call, Command, Entry, Mark, Mode, Refusal, Reply, Sequence};

/// The answer to a call at that place of a stream.
fn answer(index: u64, call: Call, reply: Reply) -> Entry
    ensures { result ≡ Entry.Answer (record {
      call = call;
      reply = reply;
      index = index;
      saw = 9;
      stream = 3;
    }) }
{
    Entry::Answer(Answer {
        call,
        reply,
        index,
        saw: 9,
        stream: 3,
    })
}

/// Pushes a read that gave these bytes, and says by how much the place for data went down.
fn push_read(alloc: Global, entries: &mut PackedEntries, bytes: &[u8]) -> Result<u64, AllocError> {
    let list = Sequence::of(bytes.to_vec(alloc)?);
    entries.reserve(1)?;
    entries.reserve_data(list.len() as u64)?;
    let call = Call::Read {
        offset: -512,
        length: 7,
    };
    let before = entries.spare_data();
    entries.push(answer(entries.len(), call, Reply::Read(list)));
    Ok(before.saturating_sub(entries.spare_data()))
}

/// The same for a write of them.
fn push_write(alloc: Global, entries: &mut PackedEntries, bytes: &[u8]) -> Result<u64, AllocError> {
    let list = Bytes::copy_from_slice(alloc, bytes)?;
    entries.reserve(1)?;
    entries.reserve_data(bytes.len() as u64)?;
    let call = Call::Write {
        offset: 4096,
        bytes: list,
    };
    let before = entries.spare_data();
    entries.push(answer(entries.len(), call, Reply::Done));
    Ok(before.saturating_sub(entries.spare_data()))
}

/// Pushes an entry that has no data.
fn push_bare(entries: &mut PackedEntries, entry: Entry) -> Result<(), AllocError>
    requires { data_of entry ≡ [] }
{
    entries.reserve(1)?;
    entries.push(entry);
    Ok(())
}

/// Looks at the runs of the data of the entry at a place.
fn has_runs(rt: &impl Abort, entries: &PackedEntries, place: u64, runs: &[(u8, usize)]) {
    assert!(rt; place < entries.len());
    let mut seen = entries.entry(place).runs();
    for run in runs {
        assert!(rt; seen.next() == Some(*run));
    }
    assert!(rt; seen.next().is_none());
}

/// Whether what the entry at a place wrote is kept as it came.
fn is_shared(rt: &impl Abort, entries: &PackedEntries, place: u64, bytes: &[u8]) -> bool {
    assert!(rt; place < entries.len());
    match entries.entry(place) {
        EntryView::Answer(
            AnswerView {
                call: CallView::Write {
                    bytes: ListView::Whole(seen),
                    ..
                },
                ..
            },
        ) => seen == bytes,
        _ => false,
    }
}

/// Whether a ping stands at a place, with the place as its index.
fn is_ping(rt: &impl Abort, entries: &PackedEntries, place: u64) -> bool {
    assert!(rt; place < entries.len());
    match entries.entry(place) {
        EntryView::Answer(
            AnswerView {
                call: CallView::Ping,
                reply: ReplyView::Done,
                index,
                saw: 9,
                stream: 3,
            },
        ) => index == place,
        _ => false,
    }
}

#[test]
fn data_takes_what_the_rows_say(rt: HostRuntime) -> Result<(), Fail> {
    let alloc = rt.alloc();
    let mut entries = PackedEntries::new(alloc);
    assert_eq!(rt; push_read(alloc, &mut entries, &[0; 4096])?, 5);
    assert_eq!(rt; push_read(alloc, &mut entries, b"abc")?, 3);
    assert_eq!(rt; push_read(alloc, &mut entries, b"")?, 0);
    assert_eq!(rt; push_read(alloc, &mut entries, b"aaaaa")?, 5);
    assert_eq!(rt; push_read(alloc, &mut entries, b"aaaaaa")?, 5);
    assert_eq!(rt; push_write(alloc, &mut entries, &[0; 4096])?, 5);
    assert_eq!(rt; push_write(alloc, &mut entries, b"abc")?, 3);
    assert_eq!(rt; entries.len(), 7);
    has_runs(&rt, &entries, 0, &[(0, 4096)]);
    has_runs(&rt, &entries, 1, &[(97, 1), (98, 1), (99, 1)]);
    has_runs(&rt, &entries, 2, &[]);
    has_runs(&rt, &entries, 3, &[(97, 5)]);
    has_runs(&rt, &entries, 4, &[(97, 6)]);
    has_runs(&rt, &entries, 5, &[(0, 4096)]);
    has_runs(&rt, &entries, 6, &[(97, 1), (98, 1), (99, 1)]);
    Ok(())
}

#[test]
fn writes_without_runs_are_shared_and_count_all_the_same(rt: HostRuntime) -> Result<(), Fail> {
    let alloc = rt.alloc();
    let mut entries = PackedEntries::new(alloc);
    let list = without_runs(alloc, 4096)?;
    let short = without_runs(alloc, 100)?;
    assert_eq!(rt; push_write(alloc, &mut entries, &list)?, 4096);
    assert_eq!(rt; push_write(alloc, &mut entries, &short)?, 100);
    assert_eq!(rt; push_write(alloc, &mut entries, &[5; 4096])?, 5);
    assert_eq!(rt; entries.len(), 3);
    assert!(rt; is_shared(&rt, &entries, 0, &list));
    assert!(rt; !is_shared(&rt, &entries, 1, &short));
    assert!(rt; !is_shared(&rt, &entries, 2, &[5; 4096]));
    has_runs(&rt, &entries, 2, &[(5, 4096)]);
    Ok(())
}

#[test]
fn entries_are_seen_over_the_end_of_a_segment(rt: HostRuntime) -> Result<(), Fail> {
    let mut entries = PackedEntries::new(rt.alloc());
    for i in 0..600 {
        push_bare(&mut entries, answer(i, Call::Ping, Reply::Done))?;
    }
    assert_eq!(rt; entries.len(), 600);
    assert_eq!(rt; entries.spare(), 0);
    assert!(rt; is_ping(&rt, &entries, 0));
    for place in 254..259 {
        assert!(rt; is_ping(&rt, &entries, place));
    }
    assert!(rt; is_ping(&rt, &entries, 511));
    assert!(rt; is_ping(&rt, &entries, 512));
    assert!(rt; is_ping(&rt, &entries, 599));
    Ok(())
}

#[test]
fn rare_entries_are_seen_as_they_came(rt: HostRuntime) -> Result<(), Fail> {
    let alloc = rt.alloc();
    let mut entries = PackedEntries::new(alloc);
    let modes = Sequence::of([Mode::Rw, Mode::Err].to_vec(alloc)?);
    push_bare(&mut entries, Entry::Mark(Mark::Promoted(2)))?;
    push_bare(
        &mut entries,
        answer(
            0,
            Call::Command(Command::Status),
            Reply::Status { layers: 4, modes },
        ),
    )?;
    push_bare(
        &mut entries,
        answer(1, Call::Other(9), Reply::Refused(Refusal::Unsupported)),
    )?;
    push_bare(
        &mut entries,
        answer(2, Call::Command(Command::Add(1)), Reply::Aborted(7)),
    )?;
    assert_eq!(rt; entries.len(), 4);
    assert!(rt; matches!(entries.entry(0), EntryView::Mark(Mark::Promoted(2))));
    let EntryView::Answer(status) = entries.entry(1) else {
        panic!(rt; "no answer")
    };
    assert!(rt; matches!(status.call, CallView::Command(Command::Status)));
    assert!(rt;
        matches!(
            status.reply,
            ReplyView::Status {
                layers: 4,
                modes: [Mode::Rw, Mode::Err]
            }
        )
    );
    let EntryView::Answer(other) = entries.entry(2) else {
        panic!(rt; "no answer")
    };
    assert!(rt; matches!(other.call, CallView::Other(9)));
    assert!(rt; matches!(other.reply, ReplyView::Refused(Refusal::Unsupported)));
    let EntryView::Answer(aborted) = entries.entry(3) else {
        panic!(rt; "no answer")
    };
    assert!(rt; matches!(aborted.call, CallView::Command(Command::Add(1))));
    assert!(rt; matches!(aborted.reply, ReplyView::Aborted(7)));
    Ok(())
}

#[test]
fn places_are_made_up_to_a_limit(rt: HostRuntime) -> Result<(), Fail> {
    let mut entries = PackedEntries::new(rt.alloc());
    entries.reserve(3)?;
    entries.reserve_data(20_000_000)?;
    entries.reserve_data(4096)?;
    assert_eq!(rt; entries.spare(), 3);
    assert_eq!(rt; entries.spare_data(), 20_000_000);
    assert!(rt; entries.reserve_data(0x1_0000_0000).is_err());
    assert_eq!(rt; entries.spare_data(), 20_000_000);
    Ok(())
}

/// Such a value can go to another thread.
fn sent<T: Send>(value: T) -> T {
    value
}

#[test]
fn entries_can_go_to_another_thread(rt: HostRuntime) -> Result<(), Fail> {
    let mut entries = sent(PackedEntries::new(rt.alloc()));
    push_bare(&mut entries, answer(0, Call::Ping, Reply::Done))?;
    assert!(rt; is_ping(&rt, &entries, 0));
    Ok(())
}
