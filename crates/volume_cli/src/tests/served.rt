//! One replica that is served, and loads that generate themselves.

use super::runs::ends;
use crate::status::Status;
use outer_memory::{LimitedSink, NoFaultSink, NoFaultSource};
use outer_real::OpenGate;
use shelf_memory::NoFaultShelves;
use std::alloc::{AllocError, Global};
use std::process::Abort;
use std::sync::Wait;
use std::test::Fail;
use std::thread::Threads;

/// Reads 4,096 bytes from the begin on.
pub(crate) const READ: [u8; 26] = [
    0x01, 0x1b, 1, 0, 0, 0, 0, 0, 0, 0, 0, 0, 0, 0, 0, 0, 0, 0, 0, 0x10, 0, 0, 0, 0, 0, 0,
];

/// The header of the reply: as many bytes.
pub(crate) const REPLY: [u8; 26] = [
    0x01, 0x1b, 1, 0, 0, 0, 2, 0, 0, 0, 0, 0, 0, 0, 0, 0, 0, 0, 0, 0x10, 0, 0, 0, 0x10, 0, 0,
];

/// Ends it, with no bytes.
pub(crate) const CLOSE: [u8; 26] = [
    0x01, 0x1b, 2, 0, 0, 0, 5, 0, 0, 0, 0, 0, 0, 0, 0, 0, 0, 0, 0, 0, 0, 0, 0, 0, 0, 0,
];

/// An input of these parts, and what a replica replies to the read with which it begins.
pub(crate) fn joined(alloc: Global, parts: &[&[u8]]) -> Result<Vec<u8>, AllocError> {
    let mut input = Vec::new(alloc);
    for part in parts {
        input.extend_from_slice(part)?;
    }
    Ok(input)
}

/// Compares how the words end on this input, and what is written.
fn hold(
    rt: &(impl AllocGlobal + Abort + Threads + Wait + Sync),
    words: &[&str],
    input: Vec<u8>,
    note: &str,
    code: u8,
    written: &[u8],
) -> Result<(), AllocError> {
    let mut source = NoFaultSource::new(input, 65_536);
    let mut sink = NoFaultSink::new(rt.alloc(), 70_000);
    let mut shelves = NoFaultShelves::new(rt.alloc());
    let ended = ends(rt, words, &mut source, &mut sink, &mut shelves, &OpenGate)?;
    assert_eq!(rt; ended.to_string(rt.alloc())?.as_str(), note);
    assert_eq!(rt; ended.code(), code);
    assert!(rt; sink.bytes() == written);
    Ok(())
}

#[test]
fn a_replica_replies_until_its_input_ends(rt: HostRuntime) -> Result<(), Fail> {
    let alloc = rt.alloc();
    let words: &[&str] = &["replica", "2097152"];
    let zeros = [0; 4096];
    let reply = joined(alloc, &[&REPLY, &zeros])?;
    hold(&rt, words, joined(alloc, &[&READ])?, "", 0, &reply)?;
    hold(
        &rt,
        words,
        joined(alloc, &[&READ, &CLOSE, b"more"])?,
        "",
        0,
        &reply,
    )?;
    hold(
        &rt,
        words,
        joined(alloc, &[&READ, &[0, 0]])?,
        "frame 26",
        11,
        &reply,
    )?;
    hold(&rt, words, Vec::new(alloc), "", 0, b"")?;
    Ok(())
}

#[test]
fn a_load_prints_its_summary(rt: HostRuntime) -> Result<(), Fail> {
    let summary = b"stream 0 151c011e519b385ef4992a575286f89f84b9e5ee08fed0ea05f07c8787a80a33\n\
        control ok,ok,ok,ok,ok\nmodes RW,RW\nchain head sys-1\n\
        disk 51cb8070c1f2ed1b4f0100f3153c72c8e7c63d82cc4dc6598b00ad87241db467\n";
    hold(
        &rt,
        &["gen", "0", "1", "1"],
        Vec::new(rt.alloc()),
        "",
        0,
        summary,
    )?;
    Ok(())
}

#[test]
fn a_sink_that_fails_has_a_prefix_of_the_summary(rt: HostRuntime) -> Result<(), Fail> {
    let mut source = NoFaultSource::new(Vec::new(rt.alloc()), 1);
    let mut sink = LimitedSink::new(rt.alloc(), 10);
    let mut shelves = NoFaultShelves::new(rt.alloc());
    let words: &[&str] = &["gen", "7", "2", "3"];
    let ended = ends(&rt, words, &mut source, &mut sink, &mut shelves, &OpenGate)?;
    assert_eq!(rt; ended.code(), 5);
    assert_eq!(rt; sink.bytes(), b"stream 0 e".as_slice());
    Ok(())
}
