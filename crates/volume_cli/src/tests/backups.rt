//! Backups that a run makes, and what is restored of them.
ghost use Rattle.std.specs.Prelude.{◌≡◌, ◌<◌, ◌-◌, ◌^◌, OnOk};

use super::runs::ends_over;
use super::script::{Asks, Frame, script};
use super::stores::{answer, is_told, page_of};
use crate::status::Status;
use door_memory::NoFaultDoors;
use outer_memory::{NoFaultSink, NoFaultSource};
use outer_real::OpenGate;
use shelf_memory::NoFaultShelves;
use std::alloc::{AllocError, Global};
use std::process::Abort;
use std::sync::Wait;
use std::test::Fail;
use std::thread::Threads;
use target_memory::NoFaultTarget;
use target_traits::Target;

/// Two snapshots, a write before each, and backups of both.
const STREAMS: &[Asks] = &[
    Asks::Frames(b'a', &[Frame::Write(0, 4_096)]),
    Asks::Commands(&["snapshot s"]),
    Asks::Frames(b'b', &[Frame::Write(0, 4_096)]),
    Asks::Commands(&["snapshot t"]),
    Asks::Commands(&["backup b1 s", "backup b2 t", "backup b2 t", "backup b3 u"]),
];

/// Runs them on two replicas by one worker over a target, where these carries fail of the lines of the last stream.
pub(crate) fn run_over<T: Target + Send>(
    rt: &(impl AllocGlobal + Threads + Wait + Sync),
    replicas: &str,
    target: &mut T,
) -> Result<(Status, NoFaultSink), AllocError>
    requires { T.faults target.old < 2 ^ 64 - 1 }
{
    let input = script(rt.alloc(), replicas, STREAMS)?;
    let mut sink = NoFaultSink::new(rt.alloc(), 4_096);
    let status = ends_over(
        rt,
        &["run", "--workers=one"],
        &mut NoFaultSource::new(input, 4_096),
        &mut sink,
        &mut NoFaultShelves::new(rt.alloc()),
        target,
        &OpenGate,
        &mut NoFaultDoors { alloc: rt.alloc() },
    )?;
    Ok((status, sink))
}

/// Whether the text stands somewhere in what was printed.
fn has(printed: &[u8], text: &str) -> bool {
    printed
        .windows(text.len().max(1))
        .any(|some| some == text.as_bytes())
}

/// What is restored of a backup.
fn restored<T: Target + Send>(
    rt: &(impl AllocGlobal + Threads + Wait + Sync),
    backup: &str,
    target: &mut T,
) -> Result<NoFaultSink, Fail>
    requires { T.faults target.old < 2 ^ 64 - 1 }
    ensures { OnOk result (T.faults target.new ≡ T.faults target.old) }
{
    let (status, sink) = answer(rt, &["restore", backup, "v"], target)?;
    match status {
        Status::Done => Ok(sink),
        _ => Err(Fail::new("a backup that was made is not restored")),
    }
}

/// Compares what is restored of each backup that was answered `ok` with the copy of its snapshot.
pub(crate) fn are_restored<T: Target + Send>(
    rt: &(impl AllocGlobal + Abort + Threads + Wait + Sync),
    printed: &[u8],
    target: &mut T,
) -> Result<(), Fail>
    requires { T.faults target.old < 2 ^ 64 - 1 }
{
    if has(printed, "backup b1 s ok\n") {
        let sink = restored(rt, "b1", target)?;
        assert!(rt; sink.bytes() == page_of(rt.alloc(), b'a')?.as_slice());
    }
    if has(printed, "backup b2 t ok\n") {
        let sink = restored(rt, "b2", target)?;
        assert!(rt; sink.bytes() == page_of(rt.alloc(), b'b')?.as_slice());
    }
    Ok(())
}

#[test]
fn a_run_makes_backups(rt: HostRuntime) -> Result<(), Fail> {
    let mut target = NoFaultTarget::new(rt.alloc());
    let (status, sink) = run_over(&rt, "2", &mut target)?;
    assert_eq!(rt; status.code(), 0);
    assert!(rt; has(sink.bytes(), "backup b1 s ok\n"));
    assert!(rt; has(sink.bytes(), "backup b2 t ok\n"));
    assert!(rt; has(sink.bytes(), "backup b2 t error backup exists\n"));
    assert!(rt; has(sink.bytes(), "backup b3 u error no such snapshot\n"));
    are_restored(&rt, sink.bytes(), &mut target)?;
    let sink = is_told(&rt, &["backups", "v"], &mut target, "", 0)?;
    assert_eq!(rt; sink.bytes(), b"backup b1 s 1\nbackup b2 t 1\n".as_slice());
    Ok(())
}

#[test]
fn a_line_that_fails_once_is_left_for_the_next(rt: HostRuntime) -> Result<(), Fail> {
    for carry in 1..10 {
        for replicas in ["1", "2"] {
            let plan = format!(in rt.alloc();
                "{replicas},\"lines\":[{{\"worker\":4,\"replica\":0,\"fail\":[{carry}]}}]"
            )?;
            let mut target = NoFaultTarget::new(rt.alloc());
            let (status, sink) = run_over(&rt, plan.as_str(), &mut target)?;
            assert_eq!(rt; status.code(), 0);
            let lost = has(sink.bytes(), " error no replica\n");
            assert_eq!(rt; lost && replicas == "2", false);
            are_restored(&rt, sink.bytes(), &mut target)?;
        }
    }
    Ok(())
}
