ghost use Rattle.std.specs.Prelude.{◌≡◌, ◌<◌, ◌≤◌, length};
ghost use Rattle.segment_list.specs.Listed.{IsPiece};
ghost use Rattle.packed_bytes.specs.Packed.{part};

use crate::Data;
use crate::parts::first_part;
use std::marker::Model;

/// A list that is kept as it is, in one chunk or more. Contracts see the list.
#[derive(Drop)]
pub struct PlainList<'a> {
    store: &'a Data,
    at: usize,
    until: usize,
}

impl<'a> Model for PlainList<'a> {
    ghost use Rattle.std.specs.Prelude.{◌≤◌, List, ℕ, length};
    ghost use Rattle.packed_bytes.specs.Packed.{part};

    ghost Value = { List ℕ };

    ghost view = { λ l. part l.store.now.items l.at l.until };

    ghost invariant = { λ l. (l.at ≤ l.until) × (l.until ≤ length l.store.now.items) };
}

impl<'a> PlainList<'a> {
    pub(crate) fn between(store: &'a Data, at: usize, until: usize) -> PlainList<'a>
        requires order { at ≤ until }
        requires within { until ≤ length store.now.items }
        ensures { result ≡ part store.now.items at until }
    {
        PlainList { store, at, until }
    }

    /// How many bytes it is.
    pub fn len(&self) -> usize
        ensures { result ≡ length self.now }
    {
        self.until - self.at
    }

    /// The bytes from a place of the list on, as far as their chunk goes.
    pub fn piece(&self, place: usize) -> &'a [u8]
        requires { place < length self.now }
        ensures { IsPiece place self.now result.now }
    {
        first_part(self.store, self.at + place, self.until)
    }
}
