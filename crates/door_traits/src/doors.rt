ghost use Rattle.std.specs.Prelude.{◌≡◌, ◌++◌, ◌∷◌, ℕ, Bool, true, List, [], IfOk, OnErr};
ghost use Rattle.outer_traits.specs.Causes.{HasOuterCause};
ghost use Rattle.door_traits.specs.Sessions.{Comes, Told, told};

use outer_traits::{Outer, Sink, Source};

/// Where the sessions of a run come from, and where they go back to when it ends.
pub trait Doors {
    type In: Source + Send + Drop;

    type Out: Sink + Send + Drop;

    // Whether doors of this type tell what comes and goes.
    ghost tells: { Bool };

    // What the sessions that are still to come will give, one after another.
    ghost coming: { Self → List (List ℕ) };

    // What each session told that was taken back, in order.
    ghost back: { Self → List Told };

    // How often the doors have failed. Failures of a session's own ends do not count here.
    ghost faults: { Self → ℕ };

    /// Opens the doors at an address.
    fn open(&mut self, address: &str) -> Outer<()>
        ensures coming { coming self.new ≡ coming self.old }
        ensures back { back self.new ≡ back self.old }
        ensures cause { HasOuterCause (faults self.old) (faults self.new) result };

    /// Waits for the next session and lets it in. An error lets none in.
    fn accept(&mut self) -> Outer<(Self::In, Self::Out)>
        ensures unfailed { IfOk result (λ ends. (Self.In.faults ends.0 ≡ 0) × (Self.Out.faults ends.1 ≡ 0)) }
        ensures comes { tells ≡ true → IfOk result (λ ends. Comes (coming self.old) (coming self.new)
            (Self.In.left ends.0) (Self.Out.contents ends.1)) }
        ensures none { OnErr result (coming self.new ≡ coming self.old) }
        ensures back { back self.new ≡ back self.old }
        ensures cause { HasOuterCause (faults self.old) (faults self.new) result };

    /// Takes a session back, and notes what it tells. It takes no memory: `accept` has made room for that.
    fn take_back(&mut self, source: Self::In, sink: Self::Out)
        ensures coming { coming self.new ≡ coming self.old }
        ensures back { tells ≡ true → back self.new ≡ back self.old ++ told (Self.In.left source)
            (Self.In.faults source) (Self.Out.contents sink) (Self.Out.faults sink) ∷ [] }
        ensures faults { faults self.new ≡ faults self.old };
}
