ghost use Rattle.std.specs.Prelude.{◌≡◌, ◌<◌, ◌≤◌, Some, Ok, min, take, drop, vec_len, length};
ghost use Rattle.std.specs.Io.{ReadsAtMost};
ghost use Rattle.std.specs.Io.KnownBytes.{ReadConsumes};
ghost use Rattle.outer_traits.specs.Causes.{HasCause};
ghost use Rattle.outer_memory.specs.Held.{Pieces, read_length};

use outer_traits::{Failed, Source};
use std::marker::Model;

/// A source of given bytes that never fails.
#[derive(Debug, Drop)]
pub struct NoFaultSource {
    bytes: Vec<u8>,
    at: usize,
    most: usize,
}

impl Model for NoFaultSource {
    ghost Value = { Pieces };

    ghost view = { λ s. record { bytes = drop s.at s.bytes.items; most = s.most } };

    ghost invariant = { λ s. (s.at ≤ vec_len s.bytes) × (0 < s.most) };
}

impl NoFaultSource {
    /// These bytes, of which each read gives at most `most`.
    pub fn new(bytes: Vec<u8>, most: usize) -> Self
        requires { 0 < most }
        ensures value { result ≡ record { bytes = bytes.items; most = most } }
        ensures left { ⟦<NoFaultSource as Source>⟧.left result ≡ Some bytes.items }
        ensures faults { ⟦<NoFaultSource as Source>⟧.faults result ≡ 0 }
    {
        NoFaultSource { bytes, at: 0, most }
    }

    /// The bytes that are left.
    pub fn left(&self) -> &[u8]
        ensures { ⟦<NoFaultSource as Source>⟧.left self.now ≡ Some result.now }
    {
        self.bytes.split_at(self.at).1
    }
}

impl Source for NoFaultSource {
    ghost left = { λ s. Some s.bytes };

    ghost faults = { λ _. 0 };

    fn read(&mut self, into: &mut [u8]) -> Result<usize, Failed>
        ensures bound { ReadsAtMost result into.new }
        ensures bytes { ReadConsumes (Some self.old.bytes) (Some self.new.bytes) result into.new }
        ensures cause { HasCause 0 0 result }

        // How much it gives.
        ensures count { result ≡ Ok (read_length self.old (length into.old)) }
        ensures most { self.new.most ≡ self.old.most }
    {
        let count = copy_front(self.left(), into, self.most);
        self.at += count;
        Ok(count)
    }
}

/// Copies as much as fits, but no more than `most`, and says how much.
fn copy_front(from: &[u8], into: &mut [u8], most: usize) -> usize
    ensures count { result ≡ min (min (length from.now) (length into.old)) most }
    ensures copied { take result into.new ≡ take result from.now }
{
    let count = from.len().min(into.len()).min(most);
    into[..count].copy_from_slice(&from[..count]);
    count
}
