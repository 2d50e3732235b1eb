//! Runs in which one call of the outside fails: the first, then the second, and so on until a run meets no failure.

use super::backups::{are_restored, run_over};
use super::faults::is_told;
use super::row::ONE;
use super::runs::{end_of, end_on, ends};
use super::script::{Asks, Frame, script};
use super::stores::{answer, page_of};
use outer_memory::{FaultPlan, MemorySink, MemorySource, NoFaultSink, NoFaultSource};
use outer_real::OpenGate;
use shelf_memory::{MemoryShelves, NoFaultShelves};
use shelf_traits::Shelves;
use std::alloc::{AllocError, Global};
use std::process::Abort;
use std::sync::Wait;
use std::test::Fail;
use std::thread::Threads;
use target_memory::MemoryTarget;

/// More calls than a run here makes of one kind.
const MOST: u64 = 200;

/// The call of that number fails.
fn only(alloc: Global, call: u64) -> Result<FaultPlan, AllocError> {
    Ok(FaultPlan::new(Vec::from_slice(alloc, &[call])?))
}

/// Two replicas that are saved, and that are opened.
const SAVED: &str = "2,\"save\":true";

const OPENED: &str = "2,\"open\":true";

/// A block is written, and then again.
const WRITES: &[Asks] = &[
    Asks::Frames(b'a', &[Frame::Write(0, 4_096)]),
    Asks::Frames(b'b', &[Frame::Write(0, 4_096)]),
];

/// What is printed of that.
const PRINTED: &str = "0 0 0 0 write 0 4096 61*4096 ok\n1 1 1 0 write 0 4096 62*4096 ok\n\
    reply 0 0 1 2 0 4096 -\nreply 1 0 1 2 0 4096 -\n\
    mode r0 RW\nmode r1 RW\nchain r0 head\nchain r1 head\n\
    head r0 406e2baf20a39e8f01688f136559a5a68ae22ba71c8f5f91fb45a77921ec62b9\n\
    head r1 406e2baf20a39e8f01688f136559a5a68ae22ba71c8f5f91fb45a77921ec62b9\n";

/// What a run says of both folders that opens them, and reads a byte, where both are of that volume.
const BOTH_ARE_NEW: &str = "open r0 RW\nopen r1 RW\n0 0 0 0 read 0 1 ok 62*1\n";

/// A read of a byte.
const READ: &[Asks] = &[Asks::Frames(0, &[Frame::Read(0, 1)])];

/// What is printed by a run that opens both folders, reads a byte, and does not save.
fn opened(
    rt: &(impl AllocGlobal + Abort + Threads + Wait + Sync),
    shelves: &mut NoFaultShelves,
) -> Result<NoFaultSink, Fail> {
    let input = script(rt.alloc(), OPENED, READ)?;
    let (status, sink) = end_on(rt, ONE, input, shelves, &OpenGate)?;
    is_told(rt, &status, "", 0)?;
    Ok(sink)
}

#[test]
fn a_read_that_fails_leaves_sink_and_shelves(rt: HostRuntime) -> Result<(), Fail> {
    for call in 1..MOST {
        let input = script(rt.alloc(), SAVED, WRITES)?;
        let mut source = MemorySource::new(input, 500, only(rt.alloc(), call)?);
        let mut sink = NoFaultSink::new(rt.alloc(), 70_000);
        let mut shelves = NoFaultShelves::new(rt.alloc());
        let status = ends(&rt, ONE, &mut source, &mut sink, &mut shelves, &OpenGate)?;
        if source.faults == 0 {
            is_told(&rt, &status, "", 0)?;
            assert_eq!(rt; sink.bytes(), PRINTED.as_bytes());
            return Ok(());
        }
        is_told(&rt, &status, "read fault", 4)?;
        assert_eq!(rt; sink.bytes(), b"".as_slice(), "at read {call}");
        assert_eq!(rt; shelves.files(0)?.len(), 0, "at read {call}");
        assert_eq!(rt; shelves.files(1)?.len(), 0, "at read {call}");
    }
    Err(Fail::new("each read failed"))
}

#[test]
fn a_write_that_fails_has_a_prefix_and_all_is_saved(rt: HostRuntime) -> Result<(), Fail> {
    for call in 1..MOST {
        let mut source = NoFaultSource::new(script(rt.alloc(), SAVED, WRITES)?, 70_000);
        let mut sink = MemorySink::new(rt.alloc(), 40, only(rt.alloc(), call)?);
        let mut shelves = NoFaultShelves::new(rt.alloc());
        let status = ends(&rt, ONE, &mut source, &mut sink, &mut shelves, &OpenGate)?;
        let told = opened(&rt, &mut shelves)?;
        assert!(rt;
            told.bytes().starts_with(BOTH_ARE_NEW.as_bytes()),
            "at write {call}"
        );
        if sink.faults == 0 {
            is_told(&rt, &status, "", 0)?;
            assert_eq!(rt; sink.bytes(), PRINTED.as_bytes());
            return Ok(());
        }
        is_told(&rt, &status, "write fault", 5)?;
        assert!(rt;
            PRINTED.as_bytes().starts_with(sink.bytes()),
            "at write {call}"
        );
        assert!(rt; sink.bytes().len() < PRINTED.len(), "at write {call}");
    }
    Err(Fail::new("each write failed"))
}

/// A byte of the fourth block is written.
const WRITES_APART: &[Asks] = &[Asks::Frames(b'a', &[Frame::Write(12_288, 1)])];

/// The folder of each replica from that number on has the same files on both.
fn are_alike(
    rt: &impl Abort,
    first: u8,
    told: &mut NoFaultShelves,
    wanted: &mut NoFaultShelves,
) -> Result<(), Fail> {
    for shelf in first..2 {
        let names = wanted.files(shelf)?;
        assert_eq!(rt; told.files(shelf)?.len(), names.len());
        for name in names.iter() {
            let same = told.held(shelf, name.as_str()) == wanted.held(shelf, name.as_str());
            assert!(rt; same, "another {}", name.as_str());
        }
    }
    Ok(())
}

/// Folders of two replicas of which the second has another fourth block.
fn put_apart(
    rt: &(impl AllocGlobal + Abort + Threads + Wait + Sync),
    shelves: &mut NoFaultShelves,
) -> Result<(), Fail> {
    let input = script(rt.alloc(), SAVED, WRITES_APART)?;
    let (status, _) = end_on(rt, ONE, input, shelves, &OpenGate)?;
    is_told(rt, &status, "", 0)?;
    Ok(shelves.write_at(1, "volume-head-000.img", 12_288, b"b")?)
}

#[test]
fn an_opening_that_fails_leaves_the_sink(rt: HostRuntime) -> Result<(), Fail> {
    let (mut shelves, mut before) = (
        MemoryShelves::new(rt.alloc(), FaultPlan::none(rt.alloc())),
        NoFaultShelves::new(rt.alloc()),
    );
    put_apart(&rt, &mut shelves.shelves)?;
    put_apart(&rt, &mut before)?;
    for call in 1..MOST {
        shelves.plan = only(rt.alloc(), call)?;
        shelves.faults = 0;
        let input = script(rt.alloc(), OPENED, READ)?;
        let (status, sink) = end_on(&rt, ONE, input, &mut shelves, &OpenGate)?;
        are_alike(&rt, 0, &mut shelves.shelves, &mut before)?;
        if shelves.faults == 0 {
            is_told(&rt, &status, "", 0)?;
            let told = b"open r0 RW\nopen r1 ERR differs head 3\n0 0 0 0 read 0 1 ok 00*1\n";
            assert!(rt; sink.bytes().starts_with(told.as_slice()));
            return Ok(());
        }
        is_told(&rt, &status, "shelf fault", 6)?;
        assert_eq!(rt; sink.bytes(), b"".as_slice(), "at call {call}");
    }
    Err(Fail::new("each call of the shelves failed"))
}

/// An older volume: a block is written under a snapshot.
const OLDER: &[Asks] = &[
    Asks::Frames(b'c', &[Frame::Write(0, 4_096)]),
    Asks::Commands(&["snapshot old"]),
];

/// What a run says of both folders that opens them, behind a save of the new volume over the older one of which a call
/// failed; and from which replica on the folders are as they were. What r0's is comes first.
const LEFT: [(&str, u8); 7] = [
    ("open r0 RW\nopen r1 RW\n0 0 0 0 read 0 1 ok 63*1\n", 0),
    (
        "open r0 ERR damaged volume.meta 0\nopen r1 RW\n0 0 0 0 read 0 1 ok 63*1\n",
        1,
    ),
    (
        "open r0 ERR unclean Dirty\nopen r1 RW\n0 0 0 0 read 0 1 ok 63*1\n",
        1,
    ),
    (
        "open r0 RW\nopen r1 ERR shape old\n0 0 0 0 read 0 1 ok 62*1\n",
        1,
    ),
    (
        "open r0 RW\nopen r1 ERR damaged volume.meta 0\n0 0 0 0 read 0 1 ok 62*1\n",
        2,
    ),
    (
        "open r0 RW\nopen r1 ERR unclean Dirty\n0 0 0 0 read 0 1 ok 62*1\n",
        2,
    ),
    (BOTH_ARE_NEW, 2),
];

/// Which of these is told of the folders, whose last ones are as they were before.
fn left(
    rt: &(impl AllocGlobal + Abort + Threads + Wait + Sync),
    shelves: &mut NoFaultShelves,
    before: &mut NoFaultShelves,
) -> Result<usize, Fail> {
    let sink = opened(rt, shelves)?;
    for (place, (told, first)) in LEFT.iter().enumerate() {
        if sink.bytes().starts_with(told.as_bytes()) {
            are_alike(rt, *first, shelves, before)?;
            return Ok(place);
        }
    }
    Err(Fail::new("the folders are left otherwise"))
}

/// Saves the older volume.
fn put_older(
    rt: &(impl AllocGlobal + Abort + Threads + Wait + Sync),
    shelves: &mut NoFaultShelves,
) -> Result<(), Fail> {
    let input = script(rt.alloc(), SAVED, OLDER)?;
    let (status, _) = end_on(rt, ONE, input, shelves, &OpenGate)?;
    Ok(is_told(rt, &status, "", 0)?)
}

#[test]
fn a_save_that_fails_leaves_the_folders_behind_it(rt: HostRuntime) -> Result<(), Fail> {
    let (mut before, mut seen) = (NoFaultShelves::new(rt.alloc()), [false; 7]);
    put_older(&rt, &mut before)?;
    for call in 1..MOST {
        let mut shelves = MemoryShelves::new(rt.alloc(), only(rt.alloc(), call)?);
        put_older(&rt, &mut shelves.shelves)?;
        let input = script(rt.alloc(), SAVED, WRITES)?;
        let (status, sink) = end_on(&rt, ONE, input, &mut shelves, &OpenGate)?;
        assert_eq!(rt; sink.bytes(), PRINTED.as_bytes(), "at call {call}");
        let place = left(&rt, &mut shelves.shelves, &mut before)?;
        if let Some(is_seen) = seen.get_mut(place) {
            *is_seen = true;
        }
        if shelves.faults == 0 {
            is_told(&rt, &status, "", 0)?;
            // Each of them comes.
            assert_eq!(rt; seen, [true; 7]);
            return Ok(());
        }
        is_told(&rt, &status, "shelf fault", 6)?;
    }
    Err(Fail::new("each call of the shelves failed"))
}

/// What is answered to three backups of which one fails, or none in the last row, and what a list has of them then.
const ANSWERS: [([&str; 3], &str); 4] = [
    (
        ["error target fault", "ok", "error backup exists"],
        "backup b2 t 1\n",
    ),
    (
        ["ok", "error target fault", "ok"],
        "backup b1 s 1\nbackup b2 t 1\n",
    ),
    (
        ["ok", "ok", "error target fault"],
        "backup b1 s 1\nbackup b2 t 1\n",
    ),
    (
        ["ok", "ok", "error backup exists"],
        "backup b1 s 1\nbackup b2 t 1\n",
    ),
];

/// What is printed of the run with these answers.
fn printed_with(alloc: Global, answers: &[&str; 3]) -> Result<String, AllocError> {
    let [first, second, third] = answers;
    format!(in alloc;
        "0 0 0 0 write 0 4096 61*4096 ok\n1 1 1 0 snapshot s ok\n\
        2 2 2 0 write 0 4096 62*4096 ok\n3 3 3 0 snapshot t ok\n\
        4 4 4 0 backup b1 s {first}\n5 5 4 1 backup b2 t {second}\n\
        6 6 4 2 backup b2 t {third}\n7 7 4 3 backup b3 u error no such snapshot\n\
        reply 0 0 1 2 0 4096 -\nreply 2 0 1 2 0 4096 -\nmode r0 RW\nchain r0 head t s\n\
        head r0 406e2baf20a39e8f01688f136559a5a68ae22ba71c8f5f91fb45a77921ec62b9\n"
    )
}

#[test]
fn a_target_that_fails_once_ends_its_backup_alone(rt: HostRuntime) -> Result<(), Fail> {
    for call in 1..MOST {
        let mut target = MemoryTarget::new(rt.alloc(), only(rt.alloc(), call)?);
        let (status, sink) = run_over(&rt, "1", &mut target)?;
        let mut told = None;
        for (place, (answers, list)) in ANSWERS.iter().enumerate() {
            if sink.bytes() == printed_with(rt.alloc(), answers)?.as_bytes() {
                told = Some((place, *list));
            }
        }
        let Some((place, list)) = told else {
            return Err(Fail::new("another output"));
        };
        are_restored(&rt, sink.bytes(), &mut target.target)?;
        let (_, made) = answer(&rt, &["backups", "v"], &mut target.target)?;
        assert_eq!(rt; made.bytes(), list.as_bytes(), "at call {call}");
        if target.faults == 0 {
            is_told(&rt, &status, "", 0)?;
            assert_eq!(rt; place, 3);
            return Ok(());
        }
        is_told(&rt, &status, "target fault", 7)?;
        assert!(rt; place < 3, "at call {call}");
    }
    Err(Fail::new("each call of the target failed"))
}

/// Asks the target that the run left, whose calls fail one after another, and compares with all that is written.
fn asks(
    rt: &(impl AllocGlobal + Abort + Threads + Wait + Sync),
    words: &[&str],
    whole: &[u8],
) -> Result<(), Fail> {
    let mut target = MemoryTarget::new(rt.alloc(), FaultPlan::none(rt.alloc()));
    run_over(rt, "1", &mut target)?;
    for call in 1..MOST {
        target.plan = only(rt.alloc(), call)?;
        target.faults = 0;
        let (status, sink) = answer(rt, words, &mut target)?;
        assert!(rt; whole.starts_with(sink.bytes()), "at call {call}");
        if target.faults == 0 {
            is_told(rt, &status, "", 0)?;
            assert_eq!(rt; sink.bytes().len(), whole.len());
            return Ok(());
        }
        is_told(rt, &status, "target fault", 7)?;
    }
    Err(Fail::new("each call of the target failed"))
}

#[test]
fn a_target_that_fails_has_a_prefix_written(rt: HostRuntime) -> Result<(), Fail> {
    let disk = page_of(rt.alloc(), b'b')?;
    asks(&rt, &["restore", "b2", "v"], disk.as_slice())?;
    asks(&rt, &["backups", "v"], b"backup b1 s 1\nbackup b2 t 1\n")
}

/// A write, a rebuild of r1 from r0, which fails behind it, and a read.
const REBUILD: &[Asks] = &[
    Asks::Frames(b'a', &[Frame::Write(0, 1)]),
    Asks::Commands(&["fail r1", "add r1", "fail r0"]),
    Asks::Frames(0, &[Frame::Read(0, 1)]),
];

/// What is printed where no carry fails.
const REBUILT: &str = "0 0 0 0 write 0 1 61*1 ok\n1 mark failed r1\n2 1 1 0 fail r1 ok\n\
    3 mark added r1 r0 sys-0\n4 mark promoted r1\n5 3 1 1 add r1 ok\n6 mark failed r0\n\
    7 6 1 2 fail r0 ok\n8 8 2 0 read 0 1 ok 61*1\nreply 0 0 1 2 0 1 -\nreply 2 0 1 2 0 1 61*1\n\
    mode r0 ERR\nmode r1 RW\nchain r1 head sys-0\n\
    head r1 69bc26647981c5985e96d27105bad947555b0e119827f3a5a01abd09b025e08c\n";

/// The same where the write finds that r0 fails.
const FALLEN: &str = "0 mark fault 0 r0 1\n1 0 0 0 write 0 1 61*1 ok\n2 mark failed r1\n\
    3 2 1 0 fail r1 ok\n4 4 1 1 add r1 error no replica\n5 5 1 2 fail r0 ok\n\
    6 6 2 0 read 0 1 error no replica\nreply 0 0 1 2 0 1 -\n\
    reply 2 0 1 3 0 10 6e*1,6f*1,20*1,72*1,65*1,70*1,6c*1,69*1,63*1,61*1\nmode r0 ERR\nmode r1 ERR\n";

/// The same where the rebuild does.
const ABORTED: &str = "0 0 0 0 write 0 1 61*1 ok\n1 mark failed r1\n2 1 1 0 fail r1 ok\n\
    3 mark added r1 r0 sys-0\n4 mark fault 1 r0 1\n5 mark aborted r1\n\
    6 3 1 1 add r1 error aborted 5\n7 7 1 2 fail r0 ok\n8 8 2 0 read 0 1 error no replica\n\
    reply 0 0 1 2 0 1 -\n\
    reply 2 0 1 3 0 10 6e*1,6f*1,20*1,72*1,65*1,70*1,6c*1,69*1,63*1,61*1\nmode r0 ERR\nmode r1 ERR\n";

/// What is printed where each carry to r0 fails, of the worker of that number: a request and a reply of the write; of the
/// barrier and of a page. The last is one more than there are.
const CARRIES: [(u8, &[&str]); 2] = [
    (0, &[FALLEN, FALLEN, REBUILT]),
    (1, &[ABORTED, ABORTED, ABORTED, ABORTED, REBUILT]),
];

#[test]
fn a_carry_that_fails_ends_its_replica(rt: HostRuntime) -> Result<(), Fail> {
    for (worker, texts) in &CARRIES {
        for (before, text) in texts.iter().enumerate() {
            let carry = before.saturating_add(1);
            let plan = format!(in rt.alloc();
                "2,\"lines\":[{{\"worker\":{worker},\"replica\":0,\"fail\":[{carry}]}}]"
            )?;
            let input = script(rt.alloc(), plan.as_str(), REBUILD)?;
            let (status, sink) = end_of(&rt, ONE, input, &OpenGate)?;
            is_told(&rt, &status, "", 0)?;
            assert_eq!(rt; sink.bytes(), text.as_bytes());
        }
    }
    Ok(())
}
