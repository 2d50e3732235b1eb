//! Two sessions, each in a thread of its own.

ghost use Rattle.desk_lock.specs.Seats.{HasAll};
ghost use Rattle.session_tables.specs.Tables.{IsFirst, IsSitting};

use crate::calls::{CALLS, call_of};
use crate::desk::Sitting;
use session_serve::{Desk, Seat, WorldOnDesk};
use std::alloc::Global;
use std::sync::Wait;
use std::thread;
use std::thread::Threads;

/// The calls of one session, one after another, and whether there was memory for all.
pub fn call_all<R: Wait>(
    rt: &R,
    alloc: Global,
    desk: &Desk<WorldOnDesk>,
    number: u8,
    sitting: Sitting,
) -> (Sitting, bool)
    requires { IsSitting desk.now number sitting }
    ensures { IsSitting desk.now number result.0 }
{
    let mut sitting = sitting;
    for index in 0..CALLS {
        let (next, made) = call_once(rt, alloc, desk, number, index, sitting);
        sitting = next;
        if !made {
            return (sitting, false);
        }
    }
    (sitting, true)
}

fn call_once<R: Wait>(
    rt: &R,
    alloc: Global,
    desk: &Desk<WorldOnDesk>,
    number: u8,
    index: u64,
    sitting: Sitting,
) -> (Sitting, bool)
    requires { IsSitting desk.now number sitting }
    ensures { IsSitting desk.now number result.0 }
{
    let Ok(call) = call_of(alloc, number, index) else {
        return (sitting, false);
    };
    let Sitting { seat, mut session } = sitting;
    let (seat, reply) = session.call(rt, alloc, desk, seat, call);
    (Sitting { seat, session }, reply.is_ok())
}

/// Both, each in a thread of its own.
pub fn call_both<R: Threads + Wait + Sync>(
    rt: &R,
    alloc: Global,
    desk: &Desk<WorldOnDesk>,
    one: Sitting,
    other: Sitting,
) -> (Sitting, Sitting, bool)
    requires one { IsSitting desk.now 0 one }
    requires other { IsSitting desk.now 1 other }
    ensures one { IsSitting desk.now 0 result.0 }
    ensures other { IsSitting desk.now 1 result.1 }
{
    let ((one, first), (other, second)) = thread::join(
        rt,
        || -> (Sitting, bool)
            requires { IsSitting desk.now 0 one }
            ensures { IsSitting desk.entry.now 0 result.0 }
        { call_all(rt, alloc, desk, 0, one) },
        || -> (Sitting, bool)
            requires { IsSitting desk.now 1 other }
            ensures { IsSitting desk.entry.now 1 result.0 }
        { call_all(rt, alloc, desk, 1, other) },
    );
    (one, other, first && second)
}

/// Both seats are joined into the first, which has all then.
pub fn join_both(
    desk: &Desk<WorldOnDesk>,
    first: &mut Seat<WorldOnDesk>,
    one: Sitting,
    other: Sitting,
)
    requires first { IsFirst 2 desk.now first.old }
    requires one { IsSitting desk.now 0 one }
    requires other { IsSitting desk.now 1 other }
    ensures first { IsFirst 2 desk.now first.new }
    ensures all { HasAll first.new }
{
    desk.join(first, one.seat);
    desk.join(first, other.seat);
}
