//! Frames as bytes, by their format: the magic, then each field with its lowest byte first, then the data.

use std::alloc::{AllocError, Global};

/// The data of a frame.
#[derive(Drop)]
pub(crate) enum Content {
    None,
    Text(&'static [u8]),
    /// One byte, so many times.
    Fill(u8, u32),
}

/// A frame: its seq, type, offset, size and data.
#[derive(Drop)]
pub(crate) struct Frame(
    pub(crate) u32,
    pub(crate) u32,
    pub(crate) i64,
    pub(crate) u32,
    pub(crate) Content,
);

pub(crate) const READ: u32 = 0;

pub(crate) const WRITE: u32 = 1;

pub(crate) const RESPONSE: u32 = 2;

pub(crate) const ERROR: u32 = 3;

pub(crate) const CLOSE: u32 = 5;

pub(crate) const PING: u32 = 6;

/// The bytes of frames, one after another, and of what stands behind them.
pub(crate) fn spell(alloc: Global, frames: &[Frame], behind: &[u8]) -> Result<Vec<u8>, AllocError> {
    let mut bytes = Vec::new(alloc);
    for frame in frames {
        push(&mut bytes, frame)?;
    }
    bytes.extend_from_slice(behind)?;
    Ok(bytes)
}

/// Appends a frame.
pub(crate) fn push(bytes: &mut Vec<u8>, frame: &Frame) -> Result<(), AllocError> {
    let Frame(seq, kind, offset, size, content) = frame;
    bytes.extend_from_slice(b"\x01\x1b")?;
    bytes.extend_from_slice(&seq.to_le_bytes())?;
    bytes.extend_from_slice(&kind.to_le_bytes())?;
    bytes.extend_from_slice(&offset.to_le_bytes())?;
    bytes.extend_from_slice(&size.to_le_bytes())?;
    push_content(bytes, content)
}

/// Appends the length of the data, and the data.
fn push_content(bytes: &mut Vec<u8>, content: &Content) -> Result<(), AllocError> {
    match content {
        Content::None => bytes.extend_from_slice(&[0; 4]),
        Content::Text(text) => {
            let length = u32::try_from(text.len()).unwrap_or(u32::MAX);
            bytes.extend_from_slice(&length.to_le_bytes())?;
            bytes.extend_from_slice(text)
        }
        Content::Fill(byte, length) => {
            bytes.extend_from_slice(&length.to_le_bytes())?;
            let end = bytes.len().saturating_add(*length as usize);
            bytes.resize(end, *byte)
        }
    }
}
