//! What each call is answered.

use crate::frame::{Content, ERROR, Frame, PING, READ, RESPONSE, WRITE, push};
use crate::served::serve_pieces;
use std::test::Fail;

/// A read of 4,096 bytes at 0, and the header of the reply.
const ASKED: &[u8; 26] = b"\x01\x1b\x01\0\0\0\0\0\0\0\0\0\0\0\0\0\0\0\0\x10\0\0\0\0\0\0";

const REPLY: &[u8; 26] = b"\x01\x1b\x01\0\0\0\x02\0\0\0\0\0\0\0\0\0\0\0\0\x10\0\0\0\x10\0\0";

#[test]
fn a_blank_replica_reads_as_zeros(rt: HostRuntime) -> Result<(), Fail> {
    let (end, sink) = serve_pieces(&rt, rt.alloc(), ASKED, 65_536)?;
    assert_eq!(rt; end, Ok(()));
    let mut wanted = REPLY.to_vec(rt.alloc())?;
    wanted.resize(26 + 4_096, 0)?;
    assert!(rt; sink.bytes() == wanted.as_slice());
    Ok(())
}

/// Calls, one after another on one replica, and what each is answered.
const CALLS: [(Frame, Frame); 18] = [
    // Two bytes over the edge of a block. What a write gives for its size says nothing.
    (
        Frame(7, WRITE, 4_095, 9, Content::Text(b"ab")),
        Frame(7, RESPONSE, 4_095, 2, Content::None),
    ),
    (
        Frame(8, READ, 4_094, 4, Content::None),
        Frame(8, RESPONSE, 4_094, 4, Content::Text(b"\0ab\0")),
    ),
    // The later of two writes is read, and seqs need not rise.
    (
        Frame(0, WRITE, 4_096, 1, Content::Text(b"c")),
        Frame(0, RESPONSE, 4_096, 1, Content::None),
    ),
    (
        Frame(u32::MAX, READ, 4_095, 2, Content::Text(b"ignored")),
        Frame(u32::MAX, RESPONSE, 4_095, 2, Content::Text(b"ac")),
    ),
    // As far as the volume goes, and no byte further.
    (
        Frame(1, WRITE, 2_097_151, 1, Content::Text(b"z")),
        Frame(1, RESPONSE, 2_097_151, 1, Content::None),
    ),
    (
        Frame(2, WRITE, 2_097_151, 2, Content::Text(b"yy")),
        Frame(2, ERROR, 2_097_151, 12, Content::Text(b"out of range")),
    ),
    (
        Frame(3, READ, 2_097_150, 2, Content::None),
        Frame(3, RESPONSE, 2_097_150, 2, Content::Text(b"\0z")),
    ),
    (
        Frame(4, READ, 2_097_151, 2, Content::None),
        Frame(4, ERROR, 2_097_151, 12, Content::Text(b"out of range")),
    ),
    (
        Frame(5, READ, -1, 1, Content::None),
        Frame(5, ERROR, -1, 12, Content::Text(b"out of range")),
    ),
    (
        Frame(6, READ, i64::MIN, 0, Content::None),
        Frame(6, ERROR, i64::MIN, 12, Content::Text(b"out of range")),
    ),
    (
        Frame(7, READ, 2_097_152, 0, Content::None),
        Frame(7, RESPONSE, 2_097_152, 0, Content::None),
    ),
    (
        Frame(8, WRITE, 2_097_153, 0, Content::None),
        Frame(8, ERROR, 2_097_153, 12, Content::Text(b"out of range")),
    ),
    // Too long comes before out of range.
    (
        Frame(9, READ, -1, 1_048_577, Content::None),
        Frame(9, ERROR, -1, 8, Content::Text(b"too long")),
    ),
    (
        Frame(10, PING, 5, 6, Content::Text(b"ping")),
        Frame(10, RESPONSE, 5, 0, Content::None),
    ),
    (
        Frame(11, 7, 3, 4, Content::None),
        Frame(11, ERROR, 3, 11, Content::Text(b"unsupported")),
    ),
    (
        Frame(12, u32::MAX, 0, 0, Content::Text(b"abc")),
        Frame(12, ERROR, 0, 11, Content::Text(b"unsupported")),
    ),
    // A call as long as one may be.
    (
        Frame(13, WRITE, 1_000, 1_048_576, Content::Fill(b'w', 1_048_576)),
        Frame(13, RESPONSE, 1_000, 1_048_576, Content::None),
    ),
    (
        Frame(14, READ, 1_001, 1_048_575, Content::None),
        Frame(
            14,
            RESPONSE,
            1_001,
            1_048_575,
            Content::Fill(b'w', 1_048_575),
        ),
    ),
];

#[test]
fn calls_are_answered_one_after_another(rt: HostRuntime) -> Result<(), Fail> {
    let (mut input, mut wanted) = (Vec::new(rt.alloc()), Vec::new(rt.alloc()));
    for (row, (asked, reply)) in CALLS.iter().enumerate() {
        push(&mut input, asked)?;
        push(&mut wanted, reply)?;
        let (end, sink) = serve_pieces(&rt, rt.alloc(), &input, 65_536)?;
        assert_eq!(rt; end, Ok(()), "at row {row}");
        assert!(rt; sink.bytes() == wanted.as_slice(), "at row {row}");
    }
    Ok(())
}
