//! The headers of the frames on a line.

ghost use Rattle.std.specs.Prelude.{◌≡◌, ◌*◌, ◌<◌, ◌≤◌, ◌^◌, length, drop, pos};
ghost use Rattle.vol_units.specs.declared.size.TheConstants.{BLOCK_BYTES};
ghost use Rattle.frame_wire.specs.Spelling.{header_length, frame, IsHead};
ghost use Rattle.client_worker.specs.Frames.{read_head, read_reply_head, write_head, write_reply_head};

use frame_stream::{READ, WRITE};
use frame_wire::{HEADER_LENGTH, Head, encode_header};
use vol_units::BLOCK_BYTES;

/// The type of a frame that replies, as dataconn numbers it.
const RESPONSE: u32 = 2;

pub(crate) fn read_head(seq: u32, offset: i64, count: u32) -> Head
    ensures value { result ≡ read_head seq offset count }
    ensures fits { IsHead result }
{
    Head {
        seq,
        kind: READ,
        offset,
        size: count,
        len: 0,
    }
}

pub(crate) fn read_reply_head(seq: u32, offset: i64, count: u32) -> Head
    ensures value { result ≡ read_reply_head seq offset count }
    ensures fits { IsHead result }
{
    Head {
        seq,
        kind: RESPONSE,
        offset,
        size: count,
        len: count,
    }
}

pub(crate) fn write_head(seq: u32, first: u32, count: u32) -> Head
    ensures value { result ≡ write_head seq first count }
    ensures fits { IsHead result }
{
    Head {
        seq,
        kind: WRITE,
        offset: offset_of(first),
        size: count,
        len: count,
    }
}

pub(crate) fn write_reply_head(seq: u32, first: u32, count: u32) -> Head
    ensures value { result ≡ write_reply_head seq first count }
    ensures fits { IsHead result }
{
    Head {
        seq,
        kind: RESPONSE,
        offset: offset_of(first),
        size: count,
        len: 0,
    }
}

/// Where a block begins.
fn offset_of(block: u32) -> i64
    ensures { result ≡ pos (block * BLOCK_BYTES) }
{
    i64::from(block) * BLOCK_BYTES as i64
}

/// Puts a header before the data of a frame, whose first bytes are left for it.
pub fn put_header(bytes: &mut [u8], head: &Head)
    requires { header_length ≤ length bytes.old }
    ensures { bytes.new ≡ frame head.now (drop header_length bytes.old) }
{
    bytes[..HEADER_LENGTH].copy_from_slice(&encode_header(head));
}
