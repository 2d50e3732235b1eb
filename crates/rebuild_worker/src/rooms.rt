//! The memory that pages are carried in.

ghost use Rattle.std.specs.Prelude.{◌≡◌, ◌+◌, ◌≤◌, length, vec_capacity, IfOk};
ghost use Rattle.frame_wire.specs.Spelling.{header_length};
ghost use Rattle.rebuild_worker.specs.Rooms.{HasRoom};

use frame_wire::HEADER_LENGTH;
use page_text::LONGEST_TEXT;
use std::alloc::{AllocError, Global};

/// What pages are carried in, one after another. It is made before the first, and never grows.
#[derive(Drop)]
pub(crate) struct Rooms {
    /// The request to the source.
    pub(crate) request: Vec<u8>,
    /// A place for a header, and the text of a page: the source's reply, and then the request to the other replica.
    pub(crate) text: Vec<u8>,
}

impl Rooms {
    /// With room for the longest frames.
    pub(crate) fn new(alloc: Global) -> Result<Rooms, AllocError>
        ensures { IfOk result HasRoom }
    {
        Ok(Rooms {
            request: Vec::with_capacity(alloc, HEADER_LENGTH + 64)?,
            text: Vec::with_capacity(alloc, HEADER_LENGTH + LONGEST_TEXT)?,
        })
    }
}

/// Leaves a place for a header, and nothing behind it. It takes no memory.
pub(crate) fn clear_text(text: &mut Vec<u8>)
    requires room { header_length ≤ vec_capacity text.old }
    ensures place { length text.new.items ≡ header_length }
    ensures room { vec_capacity text.old ≤ vec_capacity text.new }
{
    text.clear();
    text.extend_from_slice(&[0; HEADER_LENGTH]).unwrap();
}
