ghost use Rattle.std.specs.Prelude.{◌≡◌};
ghost use Rattle.world_holder.specs.Lent.{IsLent};
ghost use Rattle.world_holder.specs.Rests.{IsSeated};

use crate::at_seat::take_out;
use crate::holder::Holder;
use crate::kept::WorldOnDesk;
use desk_lock::{Desk, Guard, Seat};
use std::snapshot::Snapshot;
use std::sync::Wait;
use volume_core::World;

/// A stream's seat at a desk, lent to whoever serves the stream for some steps, and what it had seen before them.
#[derive(Drop)]
pub struct LentSeat<'d> {
    pub desk: &'d Desk<WorldOnDesk>,
    pub seat: Seat<WorldOnDesk>,
    pub first: Snapshot<Seat<WorldOnDesk>>,
}

impl<'d> LentSeat<'d> {
    /// A stream's seat, at rest, before the first of these steps.
    pub fn of(desk: &'d Desk<WorldOnDesk>, seat: Seat<WorldOnDesk>, stream: u8) -> LentSeat<'d>
        requires rests { IsSeated desk.now seat stream }
        ensures seat { result.seat ≡ seat }
        ensures desk { result.desk.now ≡ desk.now }
        ensures first { result.first.value ≡ seat }
        ensures rests { IsLent desk.now result.first.value result.seat stream }
    {
        let _ = stream;
        let first = Snapshot::of(&seat);
        LentSeat { desk, seat, first }
    }
}

impl<'d> Holder for LentSeat<'d> {
    ghost use Rattle.std.specs.Prelude.{false};
    ghost use Rattle.desk_lock.specs.declared.seats.Desk.{Desk};
    ghost use Rattle.desk_lock.specs.declared.seats.Seat.{Seat};
    ghost use Rattle.desk_lock.specs.Seats.{last_of};
    ghost use Rattle.world_holder.specs.declared.kept.WorldOnDesk.{WorldOnDesk};
    ghost use Rattle.world_holder.specs.Laid.{laid};
    ghost use Rattle.world_holder.specs.Lent.{IsLent, IsLentOut};

    ghost alone = { false };

    ghost seen = { λ a. laid (last_of a.seat) };

    ghost Home = { Desk WorldOnDesk × Seat WorldOnDesk };

    // The desk, and what the seat had seen first.
    ghost home = { λ a. (a.desk.now, a.first.value) };

    ghost rests = { λ a stream. IsLent a.desk.now a.first.value a.seat stream };

    ghost holds = { λ a stream. IsLentOut a.desk.now a.first.value a.seat stream };

    fn take<R: Wait>(&mut self, rt: &R, stream: u8) -> Box<World> {
        let _ = stream;
        let guard = self.desk.enter(rt, &mut self.seat);
        take_out(guard)
    }

    fn put(&mut self, stream: u8, world: Box<World>) {
        let _ = stream;
        let guard = Guard {
            seat: &mut self.seat,
            state: WorldOnDesk { world },
            desk: self.desk,
        };
        guard.leave();
    }
}
