ghost use Rattle.std.specs.Prelude.{◌≡◌, ℕ, ◌+◌, ◌++◌, ◌≤◌, List, Option, length, vec_len, vec_capacity, OnOk, OnErr};
ghost use Rattle.outer_traits.specs.declared.ends.Ends.{Ends};
ghost use Rattle.outer_traits.specs.Causes.{HasLineCause};
ghost use Rattle.outer_traits.specs.Lines.{Carries};

use crate::error::Failed;

/// A worker's link to one replica.
pub trait Line {
    // Between whom it is.
    ghost ends: { Self → Ends };

    // How often the line has failed.
    ghost count: { Self → ℕ };

    // The frames that it carried whole, in order, where it tells them.
    ghost carried: { Self → Option (List (List ℕ)) };

    /// Carries a frame into the room behind what `into` has. It takes no memory, so that the room has to be there.
    fn carry(&mut self, frame: &[u8], into: &mut Vec<u8>) -> Result<(), Failed>
        requires room { vec_len into.old + length frame.now ≤ vec_capacity into.old }
        ensures ok { OnOk result (into.new.items ≡ into.old.items ++ frame.now) }
        ensures err { OnErr result (into.new.items ≡ into.old.items) }
        ensures room { vec_capacity into.old ≤ vec_capacity into.new }
        ensures carried { Carries (carried self.old) (carried self.new) frame.now result }
        ensures cause { HasLineCause (count self.old) (count self.new) result }
        ensures ends { ends self.new ≡ ends self.old };

    /// How often the line has failed.
    fn faults(&self) -> u64
        ensures { result ≡ count self.now };
}
