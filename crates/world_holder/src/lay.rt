//! A World is laid on a desk, and taken up from it.
ghost use Rattle.std.specs.Prelude.{◌≡◌, ◌≤◌, [], length, None, IfOk};
ghost use Rattle.desk_lock.specs.declared.views.Stage.TheVariants.{Idle};
ghost use Rattle.desk_lock.specs.Known.{known_with, Fits};
ghost use Rattle.desk_lock.specs.Seats.{known, number_of, seats_of, IsSeatOf, HasAll};
ghost use Rattle.volume_core.specs.State.{state_of};
ghost use Rattle.volume_core.specs.Sound.{IsSound, NoneGaveUp};
ghost use Rattle.world_holder.specs.Laid.{world_account};

use crate::kept::WorldOnDesk;
use desk_lock::{Desk, Seat};
use std::alloc::{AllocError, Global};
use volume_core::World;

/// A desk with a World on which nothing has happened yet, and its first seat. A seat for each stream may be split off it.
pub fn lay_down(
    alloc: Global,
    world: Box<World>,
) -> Result<(Desk<WorldOnDesk>, Seat<WorldOnDesk>), AllocError>
    requires sound { IsSound (state_of world.value) }
    requires blank { (world.value.journal.entries ≡ []) × (world.value.turns.tickets ≡ [])
        × (world.value.maint.tickets ≡ []) }
    requires given_up { NoneGaveUp world.value.gave_up.items }
    requires streams { 1 ≤ length world.value.indices.items }
    ensures desk { IfOk result (λ r. (seats_of r.0 ≡ length world.value.indices.items) × IsSeatOf r.0 r.1) }
    ensures seat { IfOk result (λ r. known r.1 ≡ known_with None (record { world = world }) Idle 0 []) }
{
    let seats = world.indices.len() as u64;
    let laid = WorldOnDesk { world };
    Desk::new(alloc, laid, seats)
}

/// The World, once each seat that was split off was joined.
pub fn take_up(desk: Desk<WorldOnDesk>, seat: Seat<WorldOnDesk>) -> Box<World>
    requires seat { IsSeatOf desk seat × (number_of seat ≡ None) }
    requires all { HasAll seat }
    ensures { Fits world_account (record { world = result }) (known seat) }
{
    desk.close(seat).world
}
