//! Runs in which the source or the sink fails.

use super::runs::ends;
use super::script::{Asks, Frame, script};
use crate::status::Status;
use outer_memory::{FaultPlan, LimitedSink, MemorySink, MemorySource, NoFaultSource};
use outer_real::OpenGate;
use shelf_memory::NoFaultShelves;
use std::alloc::{AllocError, Global};
use std::process::Abort;
use std::test::Fail;

/// A script of one read.
fn input(alloc: Global) -> Result<Vec<u8>, AllocError> {
    script(alloc, "1", &[Asks::Frames(0, &[Frame::Read(0, 4096)])])
}

/// Compares the note of a status and its code.
pub(crate) fn is_told(
    rt: &(impl AllocGlobal + Abort),
    ended: &Status,
    note: &str,
    code: u8,
) -> Result<(), AllocError> {
    assert_eq!(rt; ended.to_string(rt.alloc())?.as_str(), note);
    assert_eq!(rt; ended.code(), code);
    Ok(())
}

#[test]
fn a_sink_that_fails_holds_a_prefix(rt: HostRuntime) -> Result<(), Fail> {
    let mut source = NoFaultSource::new(input(rt.alloc())?, 4096);
    let mut sink = LimitedSink::new(rt.alloc(), 10);
    let mut shelves = NoFaultShelves::new(rt.alloc());
    let ended = ends(
        &rt,
        &["run"],
        &mut source,
        &mut sink,
        &mut shelves,
        &OpenGate,
    )?;
    is_told(&rt, &ended, "write fault", 5)?;
    assert_eq!(rt; sink.bytes(), b"0 0 0 0 re".as_slice());
    Ok(())
}

#[test]
fn a_source_that_fails_leaves_the_sink(rt: HostRuntime) -> Result<(), Fail> {
    let second = FaultPlan::new([2].to_vec(rt.alloc())?);
    let mut source = MemorySource::new(input(rt.alloc())?, 10, second);
    let mut sink = MemorySink::new(rt.alloc(), 10, FaultPlan::none(rt.alloc()));
    let mut shelves = NoFaultShelves::new(rt.alloc());
    let ended = ends(
        &rt,
        &["run"],
        &mut source,
        &mut sink,
        &mut shelves,
        &OpenGate,
    )?;
    is_told(&rt, &ended, "read fault", 4)?;
    assert_eq!(rt; sink.bytes(), b"".as_slice());
    Ok(())
}
