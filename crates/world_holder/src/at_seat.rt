ghost use Rattle.std.specs.Prelude.{◌≡◌, ◌<◌, [], length, false, None};
ghost use Rattle.desk_lock.specs.Known.{one_more};
ghost use Rattle.desk_lock.specs.Seats.{known, number_of, last_of, made_of, seats_of, IsSeatOf};
ghost use Rattle.world_holder.specs.Laid.{laid};
ghost use Rattle.world_holder.specs.View.{view, IsFree};
ghost use Rattle.world_holder.specs.Rests.{IsSeated, IsOut};

use crate::holder::Holder;
use crate::kept::WorldOnDesk;
use desk_lock::{Desk, Guard, Seat};
use std::sync::Wait;
use volume_core::World;

/// A stream's seat at a desk, in the hands of the worker that serves the stream.
#[derive(Drop)]
pub struct AtSeat<'d> {
    pub desk: &'d Desk<WorldOnDesk>,
    pub seat: Seat<WorldOnDesk>,
}

impl<'d> AtSeat<'d> {
    /// Splits the seat of the next stream off the first. The stream has done nothing yet.
    pub fn split_off(
        desk: &'d Desk<WorldOnDesk>,
        first: &mut Seat<WorldOnDesk>,
        stream: u8,
    ) -> AtSeat<'d>
        requires seat { IsSeatOf desk.now first.old × (number_of first.old ≡ None) }
        requires room { made_of first.old < seats_of desk.now }
        requires next { stream ≡ made_of first.old }
        requires there { stream < length (laid (last_of first.old)).indices }
        ensures seat { IsSeatOf desk.now first.new }
        ensures first { known first.new ≡ one_more (known first.old) }
        ensures rests { IsSeated desk.now result.seat stream }
        ensures free { IsFree stream (laid (last_of result.seat)) }
        ensures desk { result.desk.now ≡ desk.now }
        ensures last { last_of result.seat ≡ last_of first.old }
        ensures idle { (view false stream (laid (last_of first.old))).running ≡ [] }
        ensures none { (view false stream (laid (last_of first.old))).entries ≡ [] }
    {
        let _ = stream;
        let seat = desk.split(first);
        AtSeat { desk, seat }
    }
}

impl<'d> Holder for AtSeat<'d> {
    ghost use Rattle.std.specs.Prelude.{false};
    ghost use Rattle.desk_lock.specs.declared.seats.Desk.{Desk};
    ghost use Rattle.desk_lock.specs.Seats.{last_of};
    ghost use Rattle.world_holder.specs.declared.kept.WorldOnDesk.{WorldOnDesk};
    ghost use Rattle.world_holder.specs.Laid.{laid};

    ghost alone = { false };

    ghost seen = { λ a. laid (last_of a.seat) };

    ghost Home = { Desk WorldOnDesk };

    ghost home = { λ a. a.desk.now };

    ghost rests = { λ a stream. IsSeated a.desk.now a.seat stream };

    ghost holds = { λ a stream. IsOut a.desk.now a.seat stream };

    fn take<R: Wait>(&mut self, rt: &R, stream: u8) -> Box<World> {
        let _ = stream;
        let guard = self.desk.enter(rt, &mut self.seat);
        take_out(guard)
    }

    fn put(&mut self, stream: u8, world: Box<World>) {
        let _ = stream;
        let guard = Guard {
            seat: &mut self.seat,
            state: WorldOnDesk { world },
            desk: self.desk,
        };
        guard.leave();
    }
}

// Takes the World out of the hands of the turn, which goes on.
pub(crate) fn take_out<'d, 's>(guard: Guard<'d, 's, WorldOnDesk>) -> Box<World>
    ensures world { result ≡ guard.entry.state.world }
    ensures seat { guard.exit.1.0.now ≡ guard.entry.seat.now }
{
    let Guard {
        seat,
        state,
        desk: _desk,
    } = guard;
    keep(seat);
    state.world
}

fn keep(seat: &mut Seat<WorldOnDesk>)
    ensures { seat.new ≡ seat.old }
{
    let _ = seat;
}
