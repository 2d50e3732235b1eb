ghost use Rattle.std.specs.Prelude.{◌≡◌, ◌<◌, [], length, true, false};
ghost use Rattle.volume_core.specs.State.{state_of, gave_up_at};
ghost use Rattle.volume_core.specs.Sound.{IsSound, NoneGaveUp};
ghost use Rattle.world_holder.specs.View.{view, IsFree};
ghost use Rattle.world_holder.specs.Rests.{IsInHand, IsKept};

use crate::holder::Holder;
use std::snapshot::Snapshot;
use std::sync::Wait;
use volume_core::World;

/// A World in the hands of the one worker there is, which serves that stream now.
#[derive(Drop)]
pub struct Hand {
    world: Option<Box<World>>,
    last: Snapshot<Box<World>>,
}

impl Hand {
    /// A World of which no call is open, no command has the maintenance turn or waits for it, and no stream gave a
    /// command up.
    pub fn of(world: Box<World>, stream: u8) -> Hand
        requires sound { IsSound (state_of world.value) }
        requires there { stream < length world.value.indices.items }
        requires rest { world.value.turns.tickets ≡ [] }
        requires turns { world.value.commands.items ≡ [] }
        requires gave_up { NoneGaveUp world.value.gave_up.items }
        ensures rests { ⟦<Hand as Holder>⟧.rests result stream }
        ensures free { IsFree stream (⟦<Hand as Holder>⟧.seen result) }
        ensures idle { (view true stream (⟦<Hand as Holder>⟧.seen result)).running ≡ [] }
        ensures seen { ⟦<Hand as Holder>⟧.seen result ≡ state_of world.value }
    {
        let _ = stream;
        let last = Snapshot::of(&world);
        Hand {
            world: Some(world),
            last,
        }
    }

    /// Gives the World back, of which no call is open, where the stream gave no command up.
    pub fn into_world(self, stream: u8) -> Box<World>
        requires rests { ⟦<Hand as Holder>⟧.rests self stream }
        requires idle { (view true stream (⟦<Hand as Holder>⟧.seen self)).running ≡ [] }
        requires kept { gave_up_at (⟦<Hand as Holder>⟧.seen self).gave_up stream ≡ false }
        ensures sound { IsSound (state_of result.value) }
        ensures rest { result.value.turns.tickets ≡ [] }
        ensures turns { result.value.commands.items ≡ [] }
        ensures gave_up { NoneGaveUp result.value.gave_up.items }
        ensures world { state_of result.value ≡ ⟦<Hand as Holder>⟧.seen self }
    {
        let _ = stream;
        self.world.unwrap()
    }
}

impl Holder for Hand {
    ghost use Rattle.std.specs.Prelude.{true};
    ghost use Rattle.volume_core.specs.Streams.{Origin, origin_of};

    ghost alone = { true };

    ghost seen = { λ h. state_of h.last.value.value };

    ghost Home = { Origin };

    ghost home = { λ h. origin_of (state_of h.last.value.value) };

    ghost rests = { λ h stream. IsInHand h.world h.last.value stream };

    ghost holds = { λ h stream. IsKept h.last.value.value stream };

    fn take<R: Wait>(&mut self, rt: &R, stream: u8) -> Box<World> {
        let _ = rt;
        let _ = stream;
        self.world.take().unwrap()
    }

    fn put(&mut self, stream: u8, world: Box<World>) {
        let _ = stream;
        self.last = Snapshot::of(&world);
        self.world = Some(world);
    }
}
