//! One turn at a desk.
ghost use Rattle.desk_lock.specs.Account.{MayLeave};
ghost use Rattle.desk_lock.specs.Seats.{number_of, last_of, HasState, HasLeft};

use crate::kept::Kept;
use crate::seats::{Desk, Seat};

/// The state, in the hands of one seat's holder for one step. It is not `Drop`: `leave` ends it.
pub struct Guard<'d, 's, S: Kept> {
    // First, where it is aligned as it is moved: behind the seat a turn took one or two nanoseconds more.
    pub state: S,
    pub seat: &'s mut Seat<S>,
    pub desk: &'d Desk<S>,
}

impl<'d, 's, S: Kept> Guard<'d, 's, S> {
    /// Puts the state back, and passes the turn on.
    pub fn leave(self)
        requires turn { HasState self.desk.now self.seat.now }
        requires may { MayLeave S.account (number_of self.seat.now) (last_of self.seat.now) self.state }
        ensures { HasLeft self.entry.seat.now self.entry.state self.exit.1.0.now }
    {
        let Guard { seat, state, desk } = self;
        put_in(desk, seat, state);
    }
}

fn put_in<S: Kept>(desk: &Desk<S>, seat: &mut Seat<S>, state: S)
    requires turn { HasState desk.now seat.old }
    requires may { MayLeave S.account (number_of seat.old) (last_of seat.old) state }
    ensures { HasLeft seat.old state seat.new }
{
    desk.put(&mut seat.pass, state);
    desk.wake_next();
}
