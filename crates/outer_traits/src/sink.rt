ghost use Rattle.std.specs.Prelude.{ℕ, List, Option, ◌<◌, ◌≤◌, length, IfOk};
ghost use Rattle.std.specs.Io.KnownBytes.{WriteAppends};
ghost use Rattle.outer_traits.specs.Causes.{HasOuterCause};

use crate::error::Outer;

/// Where the output goes.
pub trait Sink {
    // What the sink holds, where it tells it.
    ghost contents: { Self → Option (List ℕ) };

    // How often the sink has failed.
    ghost faults: { Self → ℕ };

    /// Takes a prefix of `bytes`, of one byte at least, and says how long it is. An error takes none.
    fn write(&mut self, bytes: &[u8]) -> Outer<usize>
        requires { 0 < length bytes.now }
        ensures bound { IfOk result (λ n. (0 < n) × (n ≤ length bytes.now)) }
        ensures bytes { WriteAppends (contents self.old) (contents self.new) result bytes.now }
        ensures cause { HasOuterCause (faults self.old) (faults self.new) result };
}
