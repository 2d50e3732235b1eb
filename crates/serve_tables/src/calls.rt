//! Short calls, and what is due to a client once so many bytes of them came.

use crate::frame::{Content, ERROR, Frame, PING, READ, RESPONSE, WRITE, push};
use std::alloc::{AllocError, Global};

const CALLS: [(Frame, Frame); 6] = [
    (
        Frame(1, PING, 0, 0, Content::None),
        Frame(1, RESPONSE, 0, 0, Content::None),
    ),
    (
        Frame(2, WRITE, 8_190, 4, Content::Text(b"abcd")),
        Frame(2, RESPONSE, 8_190, 4, Content::None),
    ),
    (
        Frame(3, READ, 8_189, 6, Content::None),
        Frame(3, RESPONSE, 8_189, 6, Content::Text(b"\0abcd\0")),
    ),
    (
        Frame(4, READ, -3, 2, Content::None),
        Frame(4, ERROR, -3, 12, Content::Text(b"out of range")),
    ),
    (
        Frame(5, WRITE, 8_191, 1, Content::Text(b"\x01")),
        Frame(5, RESPONSE, 8_191, 1, Content::None),
    ),
    (
        Frame(6, READ, 8_190, 3, Content::None),
        Frame(6, RESPONSE, 8_190, 3, Content::Text(b"a\x01c")),
    ),
];

/// The bytes of the calls.
pub(crate) fn input(alloc: Global) -> Result<Vec<u8>, AllocError> {
    let mut bytes = Vec::new(alloc);
    for (asked, _) in &CALLS {
        push(&mut bytes, asked)?;
    }
    Ok(bytes)
}

/// Where the first call begins that is not whole, and the replies to those before it.
#[derive(Drop)]
pub(crate) struct Due {
    pub(crate) place: usize,
    pub(crate) replies: Vec<u8>,
}

/// What is due once so many bytes came.
pub(crate) fn due_after(alloc: Global, count: usize) -> Result<Due, AllocError> {
    let (mut whole, mut replies) = (Vec::new(alloc), Vec::new(alloc));
    let mut place = 0;
    for (asked, reply) in &CALLS {
        push(&mut whole, asked)?;
        if whole.len() > count {
            break;
        }
        place = whole.len();
        push(&mut replies, reply)?;
    }
    Ok(Due { place, replies })
}
