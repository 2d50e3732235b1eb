//! Scripts as the tests have them.

use frame_wire::{Head, encode_header};
use std::alloc::{AllocError, Global};

/// What a stream asks.
pub(crate) enum Asks {
    /// Frames, of which each write has this byte again and again.
    Frames(u8, &'static [Frame]),
    Commands(&'static [&'static str]),
}

/// A frame: the offset and the length of a read or a write, or the type of another one.
pub(crate) enum Frame {
    Read(i64, u32),
    Write(i64, u32),
    Other(u32),
}

impl Frame {
    /// The header of the frame of this number in its stream.
    fn head(&self, seq: u32) -> Head {
        let (kind, offset, size, len) = match *self {
            Frame::Read(offset, length) => (0, offset, length, 0),
            Frame::Write(offset, length) => (1, offset, length, length),
            Frame::Other(kind) => (kind, 0, 0, 0),
        };
        Head {
            seq,
            kind,
            offset,
            size,
            len,
        }
    }
}

/// A script on so many replicas. What stands behind their number are members of the first line.
pub(crate) fn script(
    alloc: Global,
    replicas: &str,
    streams: &[Asks],
) -> Result<Vec<u8>, AllocError> {
    let mut line = b"{\"volume\":\"v\",\"size\":2097152,\"replicas\":".to_vec(alloc)?;
    line.extend_from_slice(replicas.as_bytes())?;
    line.extend_from_slice(b",\"streams\":")?;
    let mut body = Vec::new(alloc);
    let mut before = b'[';
    for stream in streams {
        line.push(before)?;
        put_stream(alloc, stream, &mut line, &mut body)?;
        before = b',';
    }
    line.extend_from_slice(b"]}\n")?;
    line.extend_from_slice(&body)?;
    Ok(line)
}

/// A stream: its member of the line, and its frames behind those of the streams before.
fn put_stream(
    alloc: Global,
    stream: &Asks,
    line: &mut Vec<u8>,
    body: &mut Vec<u8>,
) -> Result<(), AllocError> {
    match stream {
        Asks::Frames(byte, frames) => {
            let start = body.len();
            put_frames(frames, *byte, body)?;
            let count = body.len().saturating_sub(start);
            let member = format!(in alloc; "{{\"frames\":{count}}}")?;
            line.extend_from_slice(member.as_bytes())
        }
        Asks::Commands(texts) => put_commands(texts, line),
    }
}

/// Each frame's header and its data.
fn put_frames(frames: &[Frame], byte: u8, body: &mut Vec<u8>) -> Result<(), AllocError> {
    let mut seq: u32 = 0;
    for frame in frames {
        seq = seq.wrapping_add(1);
        let head = frame.head(seq);
        body.extend_from_slice(&encode_header(&head))?;
        let end = body.len().saturating_add(head.len as usize);
        body.resize(end, byte)?;
    }
    Ok(())
}

/// The member of a stream of commands.
fn put_commands(texts: &[&str], line: &mut Vec<u8>) -> Result<(), AllocError> {
    line.extend_from_slice(b"{\"control\":")?;
    let mut before: &[u8] = b"[\"";
    for text in texts {
        line.extend_from_slice(before)?;
        line.extend_from_slice(text.as_bytes())?;
        before = b"\",\"";
    }
    line.extend_from_slice(b"\"]}")
}
