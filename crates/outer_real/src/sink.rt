ghost use Rattle.std.specs.Prelude.{◌≡◌, ◌<◌, ◌≤◌, length, IfOk, IfErr};
ghost use Rattle.std.specs.Io.KnownBytes.{WriteAppends};
ghost use Rattle.outer_traits.specs.Causes.{HasOuterCause};

use outer_traits::{Outer, OuterError, Sink};
use std::io::Write;

/// Standard output, or any other writer. It tells what it holds where the writer does, which standard output does not.
#[derive(Drop)]
pub struct StdSink<W> {
    inner: W,
    faults: u64,
}

impl<W: Write> StdSink<W> {
    pub fn new(inner: W) -> Self
        ensures contents { ⟦<StdSink<W> as Sink>⟧.contents result ≡ W.contents inner }
        ensures faults { ⟦<StdSink<W> as Sink>⟧.faults result ≡ 0 }
    {
        StdSink { inner, faults: 0 }
    }
}

impl<W: Write> Sink for StdSink<W> {
    ghost contents = { λ s. W.contents s.inner };

    ghost faults = { λ s. s.faults };

    /// A writer that takes nothing has failed, and so has one that a signal interrupted.
    fn write(&mut self, bytes: &[u8]) -> Outer<usize>
        requires { 0 < length bytes.now }
        ensures bound { IfOk result (λ n. (0 < n) × (n ≤ length bytes.now)) }
        ensures bytes { WriteAppends (⟦<StdSink<W> as Sink>⟧.contents self.old)
            (⟦<StdSink<W> as Sink>⟧.contents self.new) result bytes.now }
        ensures cause { HasOuterCause (⟦<StdSink<W> as Sink>⟧.faults self.old)
            (⟦<StdSink<W> as Sink>⟧.faults self.new) result }

        // Each error of the writer is a fault, whatever its kind.
        ensures fault { IfErr result (λ e. e ≡ OuterError.Failed) }
    {
        match self.inner.write(bytes) {
            Ok(0) | Err(_) => {
                self.faults = self.faults.saturating_add(1);
                Err(OuterError::Failed)
            }
            Ok(count) => Ok(count),
        }
    }
}
