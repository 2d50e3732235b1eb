//! Inputs of a run that are made to harm.

use super::faults::is_told;
use super::row::ONE;
use super::runs::end_of;
use outer_real::OpenGate;
use std::alloc::{AllocError, Global};
use std::process::Abort;
use std::sync::Wait;
use std::test::Fail;
use std::thread::Threads;

/// How the first line of each script begins.
const BEGIN: &str = "{\"volume\":\"v\",\"size\":2097152,\"replicas\":1,\"streams\":[";

/// A read of the first block.
const READ: &[u8] = b"\x01\x1b\x01\0\0\0\0\0\0\0\0\0\0\0\0\0\0\0\0\x10\0\0\0\0\0\0";

/// The same with data of 4,294,967,295 bytes, none of which is there.
const ENDLESS: &[u8] = b"\x01\x1b\x01\0\0\0\0\0\0\0\0\0\0\0\0\0\0\0\0\x10\0\0\xff\xff\xff\xff";

/// What stands behind that beginning, how many bytes of a frame stand behind the line, and what is told of the input.
const SCRIPTS: [(&str, &[u8], usize, &str); 6] = [
    ("{\"frames\":25}]}\n", READ, 26, "script 94 rest"),
    ("{\"frames\":25}]}\n", READ, 25, "script 69 frame"),
    ("{\"frames\":25}]}\n", READ, 20, "script 89 rest"),
    ("{\"frames\":26}]}\n", ENDLESS, 26, "script 69 frame"),
    (
        "{\"frames\":0}],\"size\":2097153}\n",
        READ,
        0,
        "script 0 member size",
    ),
    (
        "{\"frames\":0,\"control\":[]}]}\n",
        READ,
        0,
        "script 0 member streams",
    ),
];

/// A run of the input is refused for that, and nothing is printed.
fn is_refused(
    rt: &(impl AllocGlobal + Abort + Threads + Wait + Sync),
    input: Vec<u8>,
    note: &str,
) -> Result<(), Fail> {
    let (status, sink) = end_of(rt, ONE, input, &OpenGate)?;
    is_told(rt, &status, note, 3)?;
    assert_eq!(rt; sink.bytes(), b"".as_slice());
    Ok(())
}

/// The beginning with this behind it.
fn begun(alloc: Global, rest: &str) -> Result<Vec<u8>, AllocError> {
    let mut input = BEGIN.as_bytes().to_vec(alloc)?;
    input.extend_from_slice(rest.as_bytes())?;
    Ok(input)
}

#[test]
fn what_is_no_script_is_told_with_its_place(rt: HostRuntime) -> Result<(), Fail> {
    is_refused(&rt, Vec::new(rt.alloc()), "script 0 line")?;
    for (line, frame, count, note) in &SCRIPTS {
        let mut input = begun(rt.alloc(), line)?;
        let (body, _) = frame.split_at((*count).min(frame.len()));
        input.extend_from_slice(body)?;
        is_refused(&rt, input, note)?;
    }
    Ok(())
}

#[test]
fn a_list_of_130_levels_is_no_json(rt: HostRuntime) -> Result<(), Fail> {
    let mut input = begun(rt.alloc(), "],\"x\":")?;
    for bracket in [b'[', b']'] {
        let end = input.len().saturating_add(130);
        input.resize(end, bracket)?;
    }
    input.extend_from_slice(b"}\n")?;
    is_refused(&rt, input, "script 0 json")
}

#[test]
fn commands_are_counted_over_all_streams(rt: HostRuntime) -> Result<(), Fail> {
    let mut input = begun(rt.alloc(), "{\"control\":[\"status\"")?;
    for count in 1..80_000 {
        let next: &[u8] = if count == 40_000 {
            b"]},{\"control\":[\"status\""
        } else {
            b",\"status\""
        };
        input.extend_from_slice(next)?;
    }
    input.extend_from_slice(b"]}]}\n")?;
    is_refused(&rt, input, "script 0 calls")
}
