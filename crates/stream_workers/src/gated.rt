//! Lines that pass a gate before and behind each carry, and how a wiring's lines become such.

ghost use Rattle.std.specs.Prelude.{◌≡◌};

use outer_traits::{Ends, Failed, Gate, Line, Point, Wiring};

/// A line whose worker passes the gate before and behind each carry.
#[derive(Drop)]
pub(crate) struct GatedLine<'g, L: Drop, G> {
    line: L,
    ends: Ends,
    gate: &'g G,
}

impl<'g, L: Line + Drop, G: Gate> Line for GatedLine<'g, L, G> {
    ghost ends = { λ g. L.Line.ends g.line };

    ghost count = { λ g. L.Line.count g.line };

    ghost carried = { λ g. L.Line.carried g.line };

    fn carry(&mut self, frame: &[u8], into: &mut Vec<u8>) -> Result<(), Failed> {
        self.gate
            .pass(self.ends.worker, Point::BeforeCarry(self.ends.replica));
        let answer = self.line.carry(frame, into);
        self.gate
            .pass(self.ends.worker, Point::AfterCarry(self.ends.replica));
        answer
    }

    fn faults(&self) -> u64 {
        self.line.faults()
    }
}

/// How the lines of a wiring are wrapped for their workers, and unwrapped again.
pub(crate) trait Wrapping<W: Wiring> {
    type Wrapped: Line + Send + Drop;

    /// The line between these ends, as its worker has it.
    fn wrap(&self, line: W::L, ends: Ends) -> Self::Wrapped
        ensures ends { Self.Wrapped.ends result ≡ W.L.ends line }
        ensures count { Self.Wrapped.count result ≡ W.L.count line }
        ensures carried { Self.Wrapped.carried result ≡ W.L.carried line };

    /// The line in it.
    fn unwrap(&self, line: Self::Wrapped) -> W::L
        ensures ends { W.L.ends result ≡ Self.Wrapped.ends line }
        ensures count { W.L.count result ≡ Self.Wrapped.count line }
        ensures carried { W.L.carried result ≡ Self.Wrapped.carried line };
}

/// Wraps lines so that they pass this gate.
#[derive(Drop)]
pub(crate) struct ByGate<'g, G> {
    pub(crate) gate: &'g G,
}

impl<'g, W: Wiring, G: Gate + Sync> Wrapping<W> for ByGate<'g, G> {
    type Wrapped = GatedLine<'g, W::L, G>;

    fn wrap(&self, line: W::L, ends: Ends) -> Self::Wrapped {
        GatedLine {
            line,
            ends,
            gate: self.gate,
        }
    }

    fn unwrap(&self, line: Self::Wrapped) -> W::L {
        line.line
    }
}
