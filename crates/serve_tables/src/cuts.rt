//! Inputs that are cut, into pieces or short.

use crate::calls::{due_after, input};
use crate::frame::{Content, Frame, READ, RESPONSE, WRITE, spell};
use crate::served::serve_pieces;
use replica_serve::ServeError;
use std::test::Fail;

#[test]
fn a_first_piece_may_end_at_any_byte(rt: HostRuntime) -> Result<(), Fail> {
    let input = input(rt.alloc())?;
    let wanted = due_after(rt.alloc(), input.len())?.replies;
    for most in 1..=input.len() {
        let (end, sink) = serve_pieces(&rt, rt.alloc(), &input, most)?;
        assert_eq!(rt; end, Ok(()), "in pieces of {most}");
        assert_eq!(rt; sink.bytes(), wanted.as_slice(), "in pieces of {most}");
    }
    Ok(())
}

#[test]
fn an_input_ends_whole_between_frames_alone(rt: HostRuntime) -> Result<(), Fail> {
    let input = input(rt.alloc())?;
    for count in 0..=input.len() {
        let wanted = due_after(rt.alloc(), count)?;
        let (end, sink) = serve_pieces(&rt, rt.alloc(), &input[..count], 64)?;
        let ends = if wanted.place == count {
            Ok(())
        } else {
            Err(ServeError::Frame(wanted.place as u64))
        };
        assert_eq!(rt; end, ends, "of {count} bytes");
        assert_eq!(rt; sink.bytes(), wanted.replies.as_slice(), "of {count} bytes");
    }
    Ok(())
}

/// A write that is longer than a piece, and what is read of it.
const LONG: [Frame; 3] = [
    Frame(1, WRITE, 5, 70_000, Content::Fill(b'l', 70_000)),
    Frame(2, READ, 4, 70_001, Content::None),
    Frame(3, READ, 70_004, 2, Content::None),
];

#[test]
fn long_frames_come_in_pieces(rt: HostRuntime) -> Result<(), Fail> {
    let alloc = rt.alloc();
    let input = spell(alloc, &LONG, b"")?;
    let mut wanted = spell(alloc, &[Frame(1, RESPONSE, 5, 70_000, Content::None)], b"")?;
    wanted.extend_from_slice(
        b"\x01\x1b\x02\0\0\0\x02\0\0\0\x04\0\0\0\0\0\0\0\x71\x11\x01\0\x71\x11\x01\0\0",
    )?;
    let end = wanted.len().saturating_add(70_000);
    wanted.resize(end, b'l')?;
    wanted.extend_from_slice(
        b"\x01\x1b\x03\0\0\0\x02\0\0\0\x74\x11\x01\0\0\0\0\0\x02\0\0\0\x02\0\0\0l\0",
    )?;
    for most in [4_000, 65_535, 65_536, 65_537] {
        let (end, sink) = serve_pieces(&rt, alloc, &input, most)?;
        assert_eq!(rt; end, Ok(()), "in pieces of {most}");
        assert!(rt; sink.bytes() == wanted.as_slice(), "in pieces of {most}");
    }
    Ok(())
}
