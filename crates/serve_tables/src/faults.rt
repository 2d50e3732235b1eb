//! A source or a sink that fails.

use crate::calls::{due_after, input};
use crate::frame::{CLOSE, Content, Frame, PING, RESPONSE, spell};
use crate::served::{serve, serve_failing};
use outer_memory::{LimitedSink, NoFaultSource};
use replica_serve::ServeError;
use std::test::Fail;

/// How many bytes each read gives, and how many reads give the calls: less than a header, a header, more than a frame.
const PIECES: [(usize, u64); 3] = [(10, 17), (26, 7), (57, 3)];

/// What is due once so many reads came stands in the sink when the next one fails, though it fills no buffer: a client
/// that waits for a reply gets it before more is read.
#[test]
fn what_is_due_is_written_before_more_is_read(rt: HostRuntime) -> Result<(), Fail> {
    let alloc = rt.alloc();
    let input = input(alloc)?;
    for (most, reads) in PIECES {
        let mut came: usize = 0;
        for before in 0..=reads {
            let (end, sink) = serve_failing(&rt, alloc, &input, most, before)?;
            let wanted = due_after(alloc, came)?.replies;
            assert_eq!(rt; end, Err(ServeError::ReadFault), "after {before} of {most}");
            assert_eq!(rt; sink.bytes(), wanted.as_slice(), "after {before} of {most}");
            came = came.saturating_add(most);
        }
    }
    Ok(())
}

#[test]
fn a_source_is_not_read_behind_a_close(rt: HostRuntime) -> Result<(), Fail> {
    let alloc = rt.alloc();
    let frames = [
        Frame(1, PING, 0, 0, Content::None),
        Frame(2, CLOSE, 0, 0, Content::None),
    ];
    let input = spell(alloc, &frames, b"")?;
    let (end, sink) = serve_failing(&rt, alloc, &input, 65_536, 1)?;
    assert_eq!(rt; end, Ok(()));
    let wanted = spell(alloc, &[Frame(1, RESPONSE, 0, 0, Content::None)], b"")?;
    assert_eq!(rt; sink.bytes(), wanted.as_slice());
    Ok(())
}

#[test]
fn a_sink_that_fails_has_a_beginning(rt: HostRuntime) -> Result<(), Fail> {
    let alloc = rt.alloc();
    let input = input(alloc)?;
    let wanted = due_after(alloc, input.len())?.replies;
    for room in 0..wanted.len() {
        let mut source = NoFaultSource::new(input.clone()?, 100);
        let mut sink = LimitedSink::new(alloc, room);
        let end = serve(&rt, alloc, &mut source, &mut sink)?;
        assert_eq!(rt; end, Err(ServeError::WriteFault), "with room for {room}");
        assert_eq!(rt; sink.bytes(), &wanted[..room], "with room for {room}");
    }
    Ok(())
}
