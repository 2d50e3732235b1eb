//! What calls at a seat.

ghost use Rattle.std.specs.Prelude.{◌≡◌, ◌≤◌, length, map, IfOk, OnErr};
ghost use Rattle.desk_lock.specs.Seats.{last_of};
ghost use Rattle.stream_steps.specs.Steps.{IsFrameCall};
ghost use Rattle.client_worker.specs.Asks.{IsShort};
ghost use Rattle.world_holder.specs.Laid.{laid};
ghost use Rattle.world_holder.specs.Lent.{IsSince};
ghost use Rattle.session_serve.specs.Sessions.{Caller, MayCall, IsReplied, own_of};

use crate::serve::{room_for, serve_lent};
use client_worker::{Channel, Rooms};
use outer_traits::Line;
use std::alloc::{AllocError, Global};
use std::marker::Model;
use std::mem;
use std::sync::Wait;
use volume_model::{Call, Reply};
use world_holder::{Desk, LentSeat, Seat, WorldOnDesk};

/// The calls of one seat: its number, a line to each replica, and memory that stays from call to call. It holds no
/// thread: whoever has one calls.
#[derive(Drop)]
pub struct Session<L: Line + Drop> {
    number: u8,
    channels: Vec<Channel<L>>,
    rooms: Rooms,
}

impl<L: Line + Drop> Model for Session<L> {
    ghost use Rattle.std.specs.Prelude.{◌≤◌, length};
    ghost use Rattle.session_serve.specs.Sessions.{Caller};

    ghost Value = { Caller L };

    ghost view = { λ s. record { number = s.number; channels = s.channels.items } };

    ghost invariant = { λ s. length s.channels.items ≤ 8 };
}

impl<L: Line + Drop> Session<L> {
    /// For the seat of that number. It takes no memory.
    pub fn new(alloc: Global, number: u8, channels: Vec<Channel<L>>) -> Session<L>
        requires few { length channels.items ≤ 8 }
        ensures { result ≡ record { number = number; channels = channels.items } }
    {
        Session {
            number,
            channels,
            rooms: Rooms::new(alloc),
        }
    }

    /// The lines, once no more is called.
    pub fn into_channels(self) -> Vec<Channel<L>>
        ensures { result.items ≡ self.channels }
    {
        let Session { channels, .. } = self;
        channels
    }

    /// Takes one call to its answer at the seat, which it gives back. Out of memory leaves it unasked, and nothing of it
    /// open.
    pub fn call<R: Wait>(
        &mut self,
        rt: &R,
        alloc: Global,
        desk: &Desk<WorldOnDesk>,
        seat: Seat<WorldOnDesk>,
        call: Call,
    ) -> (Seat<WorldOnDesk>, Result<Reply, AllocError>)
        requires may { MayCall L.count L.carried desk.now seat self.old }
        requires frame { IsFrameCall call }
        requires short { IsShort call }
        ensures again { MayCall L.count L.carried desk.now result.0 self.new }
        ensures number { self.new.number ≡ self.old.number }
        ensures ends { map (λ c. L.ends c.line) self.new.channels ≡ map (λ c. L.ends c.line) self.old.channels }
        ensures since { IsSince (laid (last_of seat)) (laid (last_of result.0)) }
        ensures ok { IfOk result.1 (λ reply. IsReplied self.old.number call reply
            (laid (last_of seat)) (laid (last_of result.0))) }
        ensures err { OnErr result.1 (own_of self.old.number (laid (last_of result.0))
            ≡ own_of self.old.number (laid (last_of seat))) }
    {
        let room = match room_for(alloc, &call) {
            Ok(room) => room,
            Err(error) => return (seat, Err(error)),
        };
        let channels = mem::replace(&mut self.channels, Vec::new(alloc));
        let rooms = mem::replace(&mut self.rooms, Rooms::new(alloc));
        let number = self.number;
        let lent = LentSeat::of(desk, seat, number);
        let (lent, channels, rooms, reply) = serve_lent(
            rt, alloc, lent, number, channels, rooms, call, room,
        );
        self.channels = channels;
        self.rooms = rooms;
        (lent.seat, reply)
    }
}
