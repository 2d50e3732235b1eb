//! Runs that open folders and save them.

use super::row::ONE;
use super::runs::end_on;
use super::script::{Asks, Frame, script};
use outer_real::OpenGate;
use shelf_memory::NoFaultShelves;
use shelf_traits::Shelves;
use std::process::Abort;
use std::sync::Wait;
use std::test::Fail;
use std::thread::Threads;

/// How a run by one worker on these shelves ends, and what it prints.
#[derive(Clone, Copy)]
struct Told {
    note: &'static str,
    code: u8,
    printed: &'static str,
}

/// Runs a script on shelves that do not fail, and compares how it ends and the beginning of what it prints.
fn holds(
    rt: &(impl AllocGlobal + Abort + Threads + Wait + Sync),
    replicas: &str,
    streams: &[Asks],
    shelves: &mut NoFaultShelves,
    told: &Told,
) -> Result<(), Fail> {
    let input = script(rt.alloc(), replicas, streams)?;
    let (status, sink) = end_on(rt, ONE, input, shelves, &OpenGate)?;
    assert_eq!(rt; status.to_string(rt.alloc())?.as_str(), told.note);
    assert_eq!(rt; status.code(), told.code);
    assert!(rt; sink.bytes().starts_with(told.printed.as_bytes()));
    Ok(())
}

const DONE: Told = Told {
    note: "",
    code: 0,
    printed: "",
};

/// A write of one byte, and a snapshot.
const WRITES: &[Asks] = &[
    Asks::Frames(b'a', &[Frame::Write(0, 1)]),
    Asks::Commands(&["snapshot s"]),
];

/// Reads of what was written.
const READS: &[Asks] = &[
    Asks::Frames(0, &[Frame::Read(0, 1)]),
    Asks::Commands(&["snapshot s", "snapshot t", "status"]),
];

#[test]
fn a_volume_outlives_its_run(rt: HostRuntime) -> Result<(), Fail> {
    let mut shelves = NoFaultShelves::new(rt.alloc());
    holds(&rt, "2,\"save\":true", WRITES, &mut shelves, &DONE)?;
    let told = Told {
        printed: "open r0 RW\nopen r1 RW\n\
            0 0 0 0 read 0 1 ok 61*1\n\
            1 1 1 0 snapshot s error name used\n\
            2 2 1 1 snapshot t ok\n\
            3 3 1 2 status ok layers 3 modes RW,RW\n\
            reply 0 0 1 2 0 1 61*1\n\
            mode r0 RW\nmode r1 RW\n\
            chain r0 head t s\nchain r1 head t s\n\
            head r0 69bc26647981c5985e96d27105bad947555b0e119827f3a5a01abd09b025e08c\n",
        ..DONE
    };
    holds(&rt, "2,\"open\":true", READS, &mut shelves, &told)?;
    // A run that does not save leaves the folders: the name is taken once more.
    holds(&rt, "2,\"open\":true", READS, &mut shelves, &told)
}

/// A read of a byte.
const READ: &[Asks] = &[Asks::Frames(0, &[Frame::Read(0, 1)])];

/// A write of one byte of the fourth block.
const WRITES_APART: &[Asks] = &[Asks::Frames(b'a', &[Frame::Write(12_288, 1)])];

#[test]
fn a_folder_that_differs_is_not_read(rt: HostRuntime) -> Result<(), Fail> {
    let mut shelves = NoFaultShelves::new(rt.alloc());
    holds(&rt, "2,\"save\":true", WRITES_APART, &mut shelves, &DONE)?;
    shelves.write_at(1, "volume-head-000.img", 12_288, b"b")?;
    let told = Told {
        printed: "open r0 RW\nopen r1 ERR differs head 3\n0 0 0 0 read 0 1 ok 00*1\n",
        ..DONE
    };
    holds(&rt, "2,\"open\":true", READ, &mut shelves, &told)
}

/// What a folder says of a volume that was left dirty.
const DIRTY: &[u8] =
    b"{\"Dirty\":true,\"Error\":\"\",\"Head\":\"volume-head-000.img\",\"Parent\":\"\",\
    \"Rebuilding\":false,\"SectorSize\":512,\"Size\":2097152}";

/// Says so of the folder on a shelf.
fn make_dirty(shelf: u8, shelves: &mut NoFaultShelves) -> Result<(), Fail> {
    shelves.remove(shelf, "volume.meta")?;
    Ok(shelves.write_at(shelf, "volume.meta", 0, DIRTY)?)
}

#[test]
fn the_lowest_clean_folder_is_the_disk_or_there_is_none(rt: HostRuntime) -> Result<(), Fail> {
    let mut shelves = NoFaultShelves::new(rt.alloc());
    holds(&rt, "2,\"save\":true", WRITES, &mut shelves, &DONE)?;
    make_dirty(0, &mut shelves)?;
    let one = Told {
        printed: "open r0 ERR unclean Dirty\nopen r1 RW\n0 0 0 0 read 0 1 ok 61*1\n",
        ..DONE
    };
    holds(&rt, "2,\"open\":true", READ, &mut shelves, &one)?;
    make_dirty(1, &mut shelves)?;
    let none = Told {
        note: "no clean shelf r0 unclean Dirty r1 unclean Dirty",
        code: 9,
        printed: "",
    };
    holds(&rt, "2,\"open\":true", READ, &mut shelves, &none)?;
    let damaged = Told {
        note: "no clean shelf r0 damaged volume.meta 0",
        code: 9,
        printed: "",
    };
    let mut empty = NoFaultShelves::new(rt.alloc());
    holds(&rt, "1,\"open\":true", READ, &mut empty, &damaged)
}

/// A replica that fails.
const FALLS: &[Asks] = &[Asks::Commands(&["fail r1"])];

#[test]
fn a_replica_that_failed_is_saved_as_one(rt: HostRuntime) -> Result<(), Fail> {
    let mut shelves = NoFaultShelves::new(rt.alloc());
    holds(&rt, "2,\"save\":true", FALLS, &mut shelves, &DONE)?;
    let told = Told {
        printed: "open r0 RW\nopen r1 ERR unclean Error\n",
        ..DONE
    };
    holds(&rt, "2,\"open\":true", READ, &mut shelves, &told)
}

/// What is told of a head that Longhorn made.
const MADE_ELSEWHERE: &[u8] =
    b"{\"Created\":\"long ago\",\"Labels\":{},\"Name\":\"volume-head-000.img\",\
    \"Parent\":\"\",\"Removed\":false,\"UserCreated\":true}";

#[test]
fn what_is_told_of_a_head_is_kept(rt: HostRuntime) -> Result<(), Fail> {
    let (mut shelves, head) = (NoFaultShelves::new(rt.alloc()), "volume-head-000.img.meta");
    holds(&rt, "1,\"save\":true", READ, &mut shelves, &DONE)?;
    shelves.remove(0, head)?;
    shelves.write_at(0, head, 0, MADE_ELSEWHERE)?;
    let again = "1,\"open\":true,\"save\":true,\"now\":\"today\"";
    holds(&rt, again, READ, &mut shelves, &DONE)?;
    assert_eq!(rt; shelves.held(0, head), Some(MADE_ELSEWHERE));
    // A head that the run made is told to be made by it.
    holds(&rt, again, WRITES, &mut shelves, &DONE)?;
    assert!(rt; shelves.held(0, head).is_none());
    let made = b"{\"Created\":\"today\",\"Labels\":{},\"Name\":\"volume-head-001.img\",\
        \"Parent\":\"volume-snap-s.img\",\"Removed\":false,\"UserCreated\":false}";
    assert_eq!(rt;
        shelves.held(0, "volume-head-001.img.meta"),
        Some(made.as_slice())
    );
    Ok(())
}
