//! Sessions that come through doors in memory.

ghost use Rattle.std.specs.Prelude.{◌≡◌, ◌<◌, ◌-◌, ◌^◌, IfOk};

use super::faults::is_told;
use super::runs::ends_over;
use super::served::{CLOSE, READ, REPLY, joined};
use crate::status::Status;
use door_memory::{MemDoors, Visitor};
use door_traits::Doors;
use outer_memory::{FaultPlan, LimitedSink, NoFaultSink, NoFaultSource};
use outer_real::OpenGate;
use outer_traits::Sink;
use shelf_memory::NoFaultShelves;
use std::alloc::{AllocError, Global};
use std::process::Abort;
use std::sync::Wait;
use std::test::Fail;
use std::thread::Threads;
use target_memory::NoFaultTarget;

/// One session on one replica.
const ONE: &[&str] = &["serve", "x", "2097152", "1", "1"];

/// What is printed of the replica that nobody has written.
pub(crate) const BLANK: &str = "mode r0 RW\nchain r0 head\n\
    head r0 731859029215873fdac1c9f2f8bd25a334abf0f3a9e1b057cf2cacc2826d86b0\n";

/// The line of a read.
const READ_LINE: &str = "0 0 0 0 read 0 4096 ok 00*4096\n";

/// Asks whether the volume is there.
const PING: [u8; 26] = [
    0x01, 0x1b, 3, 0, 0, 0, 6, 0, 0, 0, 0, 0, 0, 0, 0, 0, 0, 0, 0, 0, 0, 0, 0, 0, 0, 0,
];

/// Writes one byte at the begin of the second block.
const WRITE: [u8; 27] = [
    0x01, 0x1b, 1, 0, 0, 0, 1, 0, 0, 0, 0, 0x10, 0, 0, 0, 0, 0, 0, 1, 0, 0, 0, 1, 0, 0, 0, 0x62,
];

/// Doors at which those of these inputs are expected, of whose calls these fail.
pub(crate) fn doors(alloc: Global, inputs: &[&[u8]], fails: &[u64]) -> Result<MemDoors, AllocError>
    ensures { IfOk result (λ d. ⟦<MemDoors as Doors>⟧.faults d ≡ 0) }
{
    let mut doors = MemDoors::new(alloc, FaultPlan::new(Vec::from_slice(alloc, fails)?));
    for input in inputs {
        let reads = FaultPlan::none(alloc);
        let writes = FaultPlan::none(alloc);
        let visitor = Visitor::new(alloc, Vec::from_slice(alloc, input)?, 70_000, reads, writes);
        doors.expect(visitor)?;
    }
    Ok(doors)
}

/// How the words end over these doors, with this sink.
fn serve_to<K: Sink, D: Doors>(
    rt: &(impl AllocGlobal + Threads + Wait + Sync),
    words: &[&str],
    doors: &mut D,
    sink: &mut K,
) -> Result<Status, AllocError>
    requires doors { D.faults doors.old < 2 ^ 64 - 1 }
    requires sink { K.faults sink.old < 2 ^ 64 - 1 }
{
    ends_over(
        rt,
        words,
        &mut NoFaultSource::new(Vec::new(rt.alloc()), 1),
        sink,
        &mut NoFaultShelves::new(rt.alloc()),
        &mut NoFaultTarget::new(rt.alloc()),
        &OpenGate,
        doors,
    )
}

/// The same with a sink that does not fail, where that is the note.
pub(crate) fn serve<D: Doors>(
    rt: &(impl AllocGlobal + Abort + Threads + Wait + Sync),
    words: &[&str],
    doors: &mut D,
    note: &str,
    code: u8,
) -> Result<NoFaultSink, AllocError>
    requires { D.faults doors.old < 2 ^ 64 - 1 }
{
    let mut sink = NoFaultSink::new(rt.alloc(), 70_000);
    let status = serve_to(rt, words, doors, &mut sink)?;
    is_told(rt, &status, note, code)?;
    Ok(sink)
}

/// Compares what is printed where one session gave this input, and what it was replied.
fn hold(
    rt: &(impl AllocGlobal + Abort + Threads + Wait + Sync),
    input: &[u8],
    lines: &str,
    end: &str,
    replied: &[u8],
) -> Result<(), AllocError> {
    let mut doors = doors(rt.alloc(), &[input], &[])?;
    let sink = serve(rt, ONE, &mut doors, "", 0)?;
    let printed = format!(in rt.alloc(); "{lines}session 0 {end}\n{BLANK}")?;
    assert!(rt; sink.bytes() == printed.as_bytes(), "{end}");
    let session = doors.give_last().expect(rt, end);
    assert!(rt; session.sink.bytes() == replied, "{end}");
    assert!(rt; doors.give_last().is_none(), "{end}");
    Ok(())
}

#[test]
fn a_session_is_replied_and_told(rt: HostRuntime) -> Result<(), Fail> {
    let alloc = rt.alloc();
    let reply = joined(alloc, &[&REPLY, &[0; 4096]])?;
    hold(&rt, &READ, READ_LINE, "ended 1 1", &reply)?;
    let input = joined(alloc, &[&READ, &CLOSE, b"more"])?;
    hold(&rt, &input, READ_LINE, "closed 1 1", &reply)?;
    let input = joined(alloc, &[&READ, &[0, 0]])?;
    hold(&rt, &input, READ_LINE, "frame 26 1 1", &reply)?;
    hold(&rt, &CLOSE, "", "closed 0 0", b"")?;
    hold(&rt, b"", "", "ended 0 0", b"")?;
    Ok(())
}

#[test]
fn a_session_is_cut_at_each_byte_of_its_third_frame(rt: HostRuntime) -> Result<(), Fail> {
    let alloc = rt.alloc();
    let reply = joined(alloc, &[&REPLY, &[0; 4096], &REPLY, &[0; 4096]])?;
    let lines = "0 0 0 0 read 0 4096 ok 00*4096\n1 1 0 1 read 0 4096 ok 00*4096\n";
    for count in 0..WRITE.len() {
        let input = joined(alloc, &[&READ, &READ, &WRITE[..count]])?;
        let end = if count == 0 {
            "ended 2 2"
        } else {
            "frame 52 2 2"
        };
        hold(&rt, &input, lines, end, &reply)?;
    }
    Ok(())
}

/// An input of so many pings, and a frame behind them.
fn pings(alloc: Global, count: u32, last: &[u8]) -> Result<Vec<u8>, AllocError> {
    let mut input = Vec::new(alloc);
    for _ in 0..count {
        input.extend_from_slice(&PING)?;
    }
    input.extend_from_slice(last)?;
    Ok(input)
}

/// Compares the line of a session that gives so many pings and a frame behind them, and how many bytes it was replied.
fn is_pinged(
    rt: &(impl AllocGlobal + Abort + Threads + Wait + Sync),
    count: u32,
    last: &[u8],
    line: &str,
) -> Result<(), AllocError> {
    let alloc = rt.alloc();
    let input = pings(alloc, count, last)?;
    let mut doors = doors(alloc, &[&input], &[])?;
    let sink = serve(rt, ONE, &mut doors, "", 0)?;
    let last_lines = format!(in alloc; "\n{line}\n{BLANK}")?;
    assert!(rt; sink.bytes().ends_with(last_lines.as_bytes()), "{line}");
    let session = doors.give_last().expect(rt, line);
    assert_eq!(rt; session.sink.bytes().len(), 4096 * 26, "{line}");
    Ok(())
}

#[test]
fn a_session_makes_4096_calls_at_most(rt: HostRuntime) -> Result<(), Fail> {
    is_pinged(&rt, 4096, b"", "session 0 ended 4096 4096")?;
    is_pinged(&rt, 4096, &PING, "session 0 full 4096 4096")?;
    is_pinged(&rt, 4096, &CLOSE, "session 0 closed 4096 4096")?;
    is_pinged(&rt, 4096, &[1], "session 0 frame 106496 4096 4096")?;
    Ok(())
}

/// Doors at which a session is expected that reads once, of whose own reads and writes these fail.
fn doors_to_faults(alloc: Global, reads: &[u64], writes: &[u64]) -> Result<MemDoors, AllocError>
    ensures { IfOk result (λ d. ⟦<MemDoors as Doors>⟧.faults d ≡ 0) }
{
    let mut doors = MemDoors::new(alloc, FaultPlan::none(alloc));
    let reads = FaultPlan::new(Vec::from_slice(alloc, reads)?);
    let writes = FaultPlan::new(Vec::from_slice(alloc, writes)?);
    let input = Vec::from_slice(alloc, &READ)?;
    doors.expect(Visitor::new(alloc, input, 70_000, reads, writes))?;
    Ok(doors)
}

#[test]
fn a_fault_of_a_session_is_told_in_its_line_alone(rt: HostRuntime) -> Result<(), Fail> {
    let alloc = rt.alloc();
    let mut doors = doors_to_faults(alloc, &[1], &[])?;
    let sink = serve(&rt, ONE, &mut doors, "", 0)?;
    let printed = format!(in alloc; "session 0 read fault 0 0\n{BLANK}")?;
    assert!(rt; sink.bytes() == printed.as_bytes());
    let mut doors = doors_to_faults(alloc, &[2], &[])?;
    let sink = serve(&rt, ONE, &mut doors, "", 0)?;
    let printed = format!(in alloc; "{READ_LINE}session 0 read fault 1 1\n{BLANK}")?;
    assert!(rt; sink.bytes() == printed.as_bytes());
    let mut doors = doors_to_faults(alloc, &[], &[1])?;
    let sink = serve(&rt, ONE, &mut doors, "", 0)?;
    let printed = format!(in alloc; "{READ_LINE}session 0 write fault 1 1\n{BLANK}")?;
    assert!(rt; sink.bytes() == printed.as_bytes());
    let session = doors.give_last().expect(&rt, "it went back");
    assert_eq!(rt; session.sink.bytes(), b"".as_slice());
    Ok(())
}

#[test]
fn a_sink_that_fails_has_a_prefix_of_the_report(rt: HostRuntime) -> Result<(), Fail> {
    let mut doors = doors(rt.alloc(), &[&READ], &[])?;
    let mut sink = LimitedSink::new(rt.alloc(), 10);
    let status = serve_to(&rt, ONE, &mut doors, &mut sink)?;
    is_told(&rt, &status, "write fault", 5)?;
    assert_eq!(rt; sink.bytes(), b"0 0 0 0 re".as_slice());
    let session = doors.give_last().expect(&rt, "it went back");
    assert_eq!(rt; session.sink.bytes().len(), 4122);
    Ok(())
}

/// Two sessions on two replicas.
const TWO: &[&str] = &["serve", "127.0.0.1:10000", "2097152", "2", "2"];

#[test]
fn doors_that_fail_leave_all_as_it_was(rt: HostRuntime) -> Result<(), Fail> {
    // The first call opens them, and each other one lets a session in.
    for call in 1..4 {
        let mut doors = doors(rt.alloc(), &[&READ, &CLOSE], &[call])?;
        let sink = serve(&rt, TWO, &mut doors, "door fault", 12)?;
        assert_eq!(rt; sink.bytes(), b"".as_slice(), "at call {call}");
        if call == 3 {
            let session = doors.give_last().expect(&rt, "it went back");
            assert_eq!(rt; session.source.left(), READ.as_slice());
            assert_eq!(rt; session.sink.bytes(), b"".as_slice());
        }
        assert!(rt; doors.give_last().is_none(), "at call {call}");
    }
    // Nobody comes, and then one alone.
    let mut empty = doors(rt.alloc(), &[], &[])?;
    serve(&rt, ONE, &mut empty, "door fault", 12)?;
    let mut short = doors(rt.alloc(), &[&READ], &[])?;
    serve(&rt, TWO, &mut short, "door fault", 12)?;
    Ok(())
}

#[test]
fn an_address_is_any_text(rt: HostRuntime) -> Result<(), Fail> {
    for address in ["", " ", "here, at any port", "é", "127.0.0.1:0", "help"] {
        let mut doors = doors(rt.alloc(), &[&CLOSE], &[])?;
        let sink = serve(
            &rt,
            &["serve", address, "2097152", "1", "1"],
            &mut doors,
            "",
            0,
        )?;
        assert!(rt;
            sink.bytes().starts_with(b"session 0 closed 0 0\n"),
            "{address}"
        );
    }
    Ok(())
}

#[test]
fn words_past_their_limits_open_nothing(rt: HostRuntime) -> Result<(), Fail> {
    let words: &[[&str; 3]] = &[
        ["2097153", "1", "1"],
        ["0", "1", "1"],
        ["2097152", "0", "1"],
        ["2097152", "9", "1"],
        ["2097152", "1", "0"],
        ["2097152", "1", "17"],
        ["2097152", "1", "+1"],
    ];
    for [size, replicas, sessions] in words {
        let mut doors = doors(rt.alloc(), &[&CLOSE], &[1])?;
        serve(
            &rt,
            &["serve", "x", size, replicas, sessions],
            &mut doors,
            "usage",
            2,
        )?;
        assert_eq!(rt; doors.faults, 0);
    }
    Ok(())
}

/// What is printed of two replicas where each of two sessions wrote a block of its own.
const WROTE: &str = "mode r0 RW\nmode r1 RW\nchain r0 head\nchain r1 head\n\
    head r0 aca20ad9fa430fa21e55519ddc3f184c8837dc87d4e8fcb4d804b1e3da731662\n\
    head r1 aca20ad9fa430fa21e55519ddc3f184c8837dc87d4e8fcb4d804b1e3da731662\n";

/// The lines of both, where each saw both calls, and where the first or the second saw its own alone.
const BOTH_SAW: &str = "session 0 ended 1 2\nsession 1 ended 1 2\n";

const FIRST_LEFT: &str = "session 0 ended 1 1\nsession 1 ended 1 2\n";

const SECOND_LEFT: &str = "session 0 ended 1 2\nsession 1 ended 1 1\n";

/// Whether that is printed of a journal that begins with one of two calls and ends with the other one.
fn is_printed(
    alloc: Global,
    printed: &[u8],
    calls: [&str; 2],
    left: &str,
) -> Result<bool, AllocError> {
    let [first, last] = calls;
    let alone = format!(in alloc; "{last}\n{left}{WROTE}")?;
    let both = format!(in alloc; "{last}\n{BOTH_SAW}{WROTE}")?;
    Ok(
        printed.starts_with(first.as_bytes())
            && (printed.ends_with(alone.as_bytes()) || printed.ends_with(both.as_bytes())),
    )
}

#[test]
fn two_sessions_write_two_replicas(rt: HostRuntime) -> Result<(), Fail> {
    let alloc = rt.alloc();
    let mut first_write = WRITE;
    // At the begin of the first block.
    first_write[11] = 0;
    first_write[26] = 0x61;
    let mut doors = doors(alloc, &[&first_write, &WRITE], &[])?;
    let sink = serve(&rt, TWO, &mut doors, "", 0)?;
    let (calls, left) = if sink.bytes().starts_with(b"0 0 0 ") {
        (
            ["0 0 0 0 write 0 1 61*1 ok\n1 ", " 1 0 write 4096 1 62*1 ok"],
            FIRST_LEFT,
        )
    } else {
        (
            ["0 0 1 0 write 4096 1 62*1 ok\n1 ", " 0 0 write 0 1 61*1 ok"],
            SECOND_LEFT,
        )
    };
    assert!(rt; is_printed(alloc, sink.bytes(), calls, left)?);
    let later = doors.give_last().expect(&rt, "it went back");
    assert_eq!(rt; later.sink.bytes().len(), 26);
    let sooner = doors.give_last().expect(&rt, "it went back");
    assert_eq!(rt; sooner.sink.bytes().len(), 26);
    Ok(())
}
