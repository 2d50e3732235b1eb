//! Two sessions of which each gives a frame only once the other one has come so far. One thread serves them in no order.

ghost use Rattle.std.specs.Prelude.{◌≡◌, ◌<◌, ◌≤◌, [], None, Some, false, length, IfOk};
ghost use Rattle.std.specs.Io.{ReadsAtMost};
ghost use Rattle.std.specs.Io.KnownBytes.{ReadConsumes, WriteAppends};
ghost use Rattle.outer_traits.specs.Causes.{HasCause, HasOuterCause};

use super::flag::Flag;
use super::served::{READ, joined};
use super::sessions::{BLANK, doors, serve};
use door_memory::{DoorSource, MemDoors};
use door_traits::{Doors, Failed, Outer, Sink, Source};
use outer_memory::MemorySink;
use std::test::Fail;

/// How far the sessions have come.
#[derive(Drop)]
struct Course {
    /// A read of the second one has begun.
    asked: Flag,
    first_replied: Flag,
    second_replied: Flag,
}

impl Course {
    fn new() -> Course {
        Course {
            asked: Flag::new(),
            first_replied: Flag::new(),
            second_replied: Flag::new(),
        }
    }

    /// A read of a session begins. It waits for the other one, and says whether that has come so far.
    fn read(&self, session: u8, reads: u8) -> bool {
        match (session, reads) {
            (0, 0) => self.asked.comes(),
            (0, 1) => self.second_replied.comes(),
            (1, 0) => {
                self.asked.raise();
                self.first_replied.comes()
            }
            _ => true,
        }
    }

    /// A session was replied.
    fn reply(&self, session: u8) {
        match session {
            0 => self.first_replied.raise(),
            _ => self.second_replied.raise(),
        }
    }
}

/// A source that gives a frame a read. Where it waits for too long it ends, so it does not tell what is left.
#[derive(Drop)]
struct HeldSource<'a> {
    source: DoorSource,
    course: &'a Course,
    session: u8,
    reads: u8,
}

impl<'a> Source for HeldSource<'a> {
    ghost left = { λ _. None };

    ghost faults = { λ s. s.source.source.faults };

    fn read(&mut self, into: &mut [u8]) -> Result<usize, Failed> {
        let reads = self.reads;
        self.reads = reads.saturating_add(1);
        if !self.course.read(self.session, reads) {
            return Ok(0);
        }
        let room = into.len().min(READ.len());
        self.source.read(&mut into[..room])
    }
}

/// A sink that says when it holds a reply. Each is written in one piece, and taken whole.
#[derive(Drop)]
struct HeldSink<'a> {
    sink: MemorySink,
    course: &'a Course,
    session: u8,
}

impl<'a> Sink for HeldSink<'a> {
    ghost contents = { λ s. Some s.sink.sink.bytes };

    ghost faults = { λ s. s.sink.faults };

    fn write(&mut self, bytes: &[u8]) -> Outer<usize> {
        let count = self.sink.write(bytes)?;
        self.course.reply(self.session);
        Ok(count)
    }
}

/// Doors in memory, of whose sessions each waits for the other one.
#[derive(Drop)]
struct HeldDoors<'a> {
    doors: MemDoors,
    course: &'a Course,
    let_in: u8,
}

impl<'a> Doors for HeldDoors<'a> {
    type In = HeldSource<'a>;

    type Out = HeldSink<'a>;

    ghost tells = { false };

    ghost coming = { λ _. [] };

    ghost back = { λ _. [] };

    ghost faults = { λ d. d.doors.faults };

    fn open(&mut self, address: &str) -> Outer<()> {
        self.doors.open(address)
    }

    fn accept(&mut self) -> Outer<(HeldSource<'a>, HeldSink<'a>)> {
        let (source, sink) = self.doors.accept()?;
        let course = self.course;
        let session = self.let_in;
        self.let_in = session.saturating_add(1);
        let source = HeldSource {
            source,
            course,
            session,
            reads: 0,
        };
        let sink = HeldSink {
            sink,
            course,
            session,
        };
        Ok((source, sink))
    }

    fn take_back(&mut self, source: HeldSource<'a>, sink: HeldSink<'a>) {
        self.doors.take_back(source.source, sink.sink);
    }
}

/// The lines of the calls, in the one order in which they can be made, and of the first session.
const CALLED: &str = "0 0 0 0 read 0 4096 ok 00*4096\n1 1 1 0 read 0 4096 ok 00*4096\n\
    2 2 0 1 read 0 4096 ok 00*4096\nsession 0 ended 2 3\n";

#[test]
fn sessions_are_served_side_by_side(rt: HostRuntime) -> Result<(), Fail> {
    let alloc = rt.alloc();
    let course = Course::new();
    let twice = joined(alloc, &[&READ, &READ])?;
    let mut doors = HeldDoors {
        doors: doors(alloc, &[&twice, &READ], &[])?,
        course: &course,
        let_in: 0,
    };
    let words: &[&str] = &["serve", "x", "2097152", "1", "2"];
    let sink = serve(&rt, words, &mut doors, "", 0)?;
    // The second session ends before the last call is in the journal, or behind that.
    let sooner = format!(in alloc; "{CALLED}session 1 ended 1 2\n{BLANK}")?;
    let later = format!(in alloc; "{CALLED}session 1 ended 1 3\n{BLANK}")?;
    assert!(rt; sink.bytes() == sooner.as_bytes() || sink.bytes() == later.as_bytes());
    let second = doors.doors.give_last().expect(&rt, "it went back");
    assert_eq!(rt; second.sink.bytes().len(), 4122);
    let first = doors.doors.give_last().expect(&rt, "it went back");
    assert_eq!(rt; first.sink.bytes().len(), 8244);
    Ok(())
}
