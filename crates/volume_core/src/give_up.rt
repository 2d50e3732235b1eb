//! A rebuild is given up, where memory for it ran out.

ghost use Rattle.std.specs.Prelude.{◌≡◌, ◌<◌, length, Some};
ghost use Rattle.open_rebuild.specs.declared.rebuilding.Rebuilding.{Rebuilding};
ghost use Rattle.volume_core.specs.State.{state_of};
ghost use Rattle.volume_core.specs.Steps.{given_up};
ghost use Rattle.volume_core.specs.Sound.{IsSound};
ghost use Rattle.volume_core.specs.Streams.{MayGo};

use crate::world::World;

impl World {
    /// The stream gives up the rebuild that is open, of that target, which fails by it: the place of the mark that tells
    /// so. It is for `abandon` of volume_maint alone, which gives the turn back in the same step. It takes no memory.
    pub fn give_up(&mut self, stream: u8, target: u8) -> u64
        requires sound { IsSound (state_of self.old) }
        requires stream { stream < length self.old.indices.items }
        requires begun { (b : Rebuilding) × (self.old.rebuild ≡ Some b) × (b.target ≡ target) }
        ensures sound { IsSound (state_of self.new) }
        ensures place { result ≡ length self.old.journal.entries }
        ensures state { state_of self.new ≡ given_up (state_of self.old) stream target }
        ensures may { MayGo stream (state_of self.old) (state_of self.new) }
    {
        self.gave_up[stream as usize] = true;
        self.push_aborted(target)
    }
}
