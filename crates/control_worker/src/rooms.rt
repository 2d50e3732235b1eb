//! The memory that commands are carried in.

use frame_wire::HEADER_LENGTH;
use std::alloc::{AllocError, Global};
use std::marker::Model;

/// The longest text of a request: its word, two names, and the space between them.
const LONGEST_TEXT: usize = 8 + 64 + 1 + 64;

/// What the commands of a stream are carried in, one after another. It is made before the first, has room for the
/// longest request, and never grows. Contracts see the request.
#[derive(Drop)]
pub(crate) struct Rooms {
    /// A request: a place for the header, and the text.
    pub(crate) request: Vec<u8>,
    /// Where frames arrive.
    pub(crate) arrivals: Vec<u8>,
}

impl Model for Rooms {
    ghost use Rattle.std.specs.Prelude.{ℕ, List, vec_capacity};
    ghost use Rattle.control_worker.specs.Rooms.{HasRoom};

    ghost Value = { List ℕ };

    ghost view = { λ r. r.request.items };

    ghost invariant = { λ r. HasRoom (vec_capacity r.request) × HasRoom (vec_capacity r.arrivals) };
}

impl Rooms {
    /// With room for the longest request.
    pub(crate) fn new(alloc: Global) -> Result<Rooms, AllocError> {
        let most = HEADER_LENGTH + LONGEST_TEXT;
        Ok(Rooms {
            request: Vec::with_capacity(alloc, most)?,
            arrivals: Vec::with_capacity(alloc, most)?,
        })
    }
}
