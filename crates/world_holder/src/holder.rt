ghost use Rattle.std.specs.Prelude.{◌≡◌};
ghost use Rattle.volume_core.specs.State.{state_of};
ghost use Rattle.world_holder.specs.View.{IsFound, Owes};

use std::sync::Wait;
use volume_core::World;

/// Who holds a World for one stream. What others do between two of its turns, only a turn's begin tells.
pub trait Holder {
    ghost use Rattle.std.specs.Prelude.{ℕ, Bool};
    ghost use Rattle.volume_core.specs.State.{State};

    // Nobody else has the World.
    ghost alone: { Bool };

    // The World as it was seen last.
    ghost seen: { Self → State };

    // What no turn changes.
    ghost Home: { Type 0 };

    ghost home: { Self → Home };

    // The World can be taken for that stream.
    ghost rests: { Self → ℕ → Type 0 };

    // It was taken, and is to be put.
    ghost holds: { Self → ℕ → Type 0 };

    /// Takes the World, for one step of the stream.
    fn take<R: Wait>(&mut self, rt: &R, stream: u8) -> Box<World>
        requires rests { rests self.old stream }
        ensures holds { holds self.new stream }
        ensures home { home self.new ≡ home self.old }
        ensures seen { seen self.new ≡ state_of result.value }
        ensures found { IsFound alone stream (seen self.old) (state_of result.value) };

    /// Puts it back.
    fn put(&mut self, stream: u8, world: Box<World>)
        requires holds { holds self.old stream }
        requires owes { Owes stream (seen self.old) (state_of world.value) }
        ensures rests { rests self.new stream }
        ensures home { home self.new ≡ home self.old }
        ensures seen { seen self.new ≡ state_of world.value };
}
