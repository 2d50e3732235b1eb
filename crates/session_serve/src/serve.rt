//! One call at a lent seat.

ghost use Rattle.std.specs.Prelude.{◌≡◌, ◌≤◌, [], length, map, IfOk, OnErr, vec_capacity};
ghost use Rattle.desk_lock.specs.Seats.{last_of};
ghost use Rattle.stream_steps.specs.Steps.{IsFrameCall};
ghost use Rattle.client_worker.specs.Asks.{IsShort};
ghost use Rattle.world_holder.specs.Laid.{laid};
ghost use Rattle.world_holder.specs.Lent.{IsLent, IsSince};
ghost use Rattle.session_serve.specs.Sessions.{MayCall, IsReplied, own_of};
ghost use Rattle.session_serve.specs.Replies.{HasRoomFor};

use crate::reply::last_reply;
use client_worker::{Channel, Rooms, Worker};
use outer_traits::Line;
use std::alloc::{AllocError, Global};
use std::sync::Wait;
use vol_units::LONGEST_CALL;
use volume_model::{Call, Reply};
use world_holder::LentSeat;
use world_steps::{NoGate, Steps};

/// Memory for the reply, made before the call is asked.
pub(crate) fn room_for(alloc: Global, call: &Call) -> Result<Vec<u8>, AllocError>
    ensures empty { IfOk result (λ room. room.items ≡ []) }
    ensures room { IfOk result (λ room. HasRoomFor call.now (vec_capacity room)) }
{
    match call {
        Call::Read { length, .. } if *length <= LONGEST_CALL => {
            Vec::with_capacity(alloc, *length as usize)
        }
        _ => Ok(Vec::new(alloc)),
    }
}

/// Takes the call to its answer at a seat that was just lent, on these lines and in these rooms, and gives all three
/// back.
pub(crate) fn serve_lent<'d, R: Wait, L: Line + Drop>(
    rt: &R,
    alloc: Global,
    lent: LentSeat<'d>,
    number: u8,
    channels: Vec<Channel<L>>,
    rooms: Rooms,
    call: Call,
    room: Vec<u8>,
) -> (
    LentSeat<'d>,
    Vec<Channel<L>>,
    Rooms,
    Result<Reply, AllocError>,
)
    requires rests { IsLent lent.desk.now lent.first.value lent.seat number }
    requires first { lent.first.value ≡ lent.seat }
    requires may { MayCall L.count L.carried lent.desk.now lent.seat
        (record { number = number; channels = channels.items }) }
    requires few { length channels.items ≤ 8 }
    requires frame { IsFrameCall call }
    requires short { IsShort call }
    requires empty { room.items ≡ [] }
    requires room { HasRoomFor call (vec_capacity room) }
    ensures again { MayCall L.count L.carried lent.entry.desk.now result.0.seat
        (record { number = number; channels = result.1.items }) }
    ensures ends { map (λ c. L.ends c.line) result.1.items ≡ map (λ c. L.ends c.line) channels.items }
    ensures since { IsSince (laid (last_of lent.entry.seat)) (laid (last_of result.0.seat)) }
    ensures ok { IfOk result.3 (λ reply. IsReplied number call reply
        (laid (last_of lent.entry.seat)) (laid (last_of result.0.seat))) }
    ensures err { OnErr result.3 (own_of number (laid (last_of result.0.seat))
        ≡ own_of number (laid (last_of lent.entry.seat))) }
{
    let steps = Steps {
        holder: lent,
        stream: number,
        gate: NoGate,
        ended: 0,
    };
    let mut worker = Worker::with_rooms(steps, channels, rooms);
    let served = worker.serve_call(rt, alloc, call);
    let (steps, channels, rooms) = worker.into_all();
    let mut lent = steps.holder;
    let reply = match served {
        Ok(()) => Ok(last_reply(rt, &mut lent, number, room)),
        Err(error) => Err(error),
    };
    (lent, channels, rooms, reply)
}
