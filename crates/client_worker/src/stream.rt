//! One call of a stream.

ghost use Rattle.std.specs.Prelude.{◌≡◌, [], true, false, OnOk, OnErr};
ghost use Rattle.step_answers.specs.Asked.{IsNow, IsOnRange};
ghost use Rattle.stream_steps.specs.Mine.{OwnCall, IsOwn, with_running};
ghost use Rattle.stream_steps.specs.Steps.{HasNotStarted, IsFrameCall, IsWithin};
ghost use Rattle.client_worker.specs.Asks.{IsShort};
ghost use Rattle.client_worker.specs.Serving.{GrewBy};
ghost use Rattle.client_worker.specs.Ends.{TakesUp};
ghost use Rattle.client_worker.specs.Working.{Stays};

use crate::carrier::Carrier;
use crate::opened::{OpenRead, OpenWrite};
use crate::rooms::Rooms;
use outer_traits::Line;
use range_turns::TicketNumber;
use std::alloc::{AllocError, Global};
use std::sync::Wait;
use step_answers::Enrolled;
use stream_steps::ClientSteps;
use vol_units::LONGEST_CALL;
use volume_model::Call;

impl<C: ClientSteps + Drop, L: Line + Drop> Carrier<C, L> {
    /// Takes one call of the stream to its answer, in room that is lent. Out of memory leaves it unasked.
    pub(crate) fn serve_one<R: Wait>(
        &mut self,
        rt: &R,
        alloc: Global,
        call: Call,
        rooms: &mut Rooms,
    ) -> Result<(), AllocError>
        requires idle { (C.mine self.old.steps).running ≡ [] }
        requires frame { IsFrameCall call }
        requires short { IsShort call }
        ensures stays { Stays C.home L.ends self.old self.new }
        ensures ok { OnOk result (GrewBy call (C.mine self.old.steps) (C.mine self.new.steps)) }
        ensures err { OnErr result (C.mine self.new.steps ≡ C.mine self.old.steps) }
    {
        if is_now(&call) {
            self.steps.answer_now(rt, alloc, &call)?;
            return Ok(());
        }
        match self.steps.enrol(rt, alloc, &call)? {
            Enrolled::OutOfRange(_) => Ok(()),
            Enrolled::Ticket(t) => self.serve_open(rt, alloc, t, &call, rooms),
        }
    }

    /// Takes the open call to its answer. Out of memory takes it back.
    fn serve_open<R: Wait>(
        &mut self,
        rt: &R,
        alloc: Global,
        t: TicketNumber,
        call: &Call,
        rooms: &mut Rooms,
    ) -> Result<(), AllocError>
        requires range { IsOnRange call.now }
        requires within { IsWithin call.now }
        requires waits { (o : OwnCall) × IsOwn t o (C.mine self.old.steps) × HasNotStarted o
            × (o.call ≡ call.now) }
        ensures stays { Stays C.home L.ends self.old self.new }
        ensures ok { OnOk result ((o : OwnCall) → IsOwn t o (C.mine self.old.steps)
            → TakesUp o (C.mine self.old.steps) (C.mine self.new.steps)) }
        ensures err { OnErr result (C.mine self.new.steps ≡ with_running (C.mine self.old.steps) []) }
    {
        match call {
            Call::Read { offset, length } => {
                let read = &OpenRead {
                    ticket: t,
                    offset: *offset,
                    count: *length,
                };
                self.serve_read(rt, alloc, read, rooms)
            }
            Call::Write { offset, bytes } => {
                let write = &OpenWrite {
                    ticket: t,
                    offset: *offset,
                    bytes,
                };
                self.serve_write(rt, alloc, write, rooms)
            }
            Call::Ping | Call::Other(_) | Call::Command(_) => unreachable!(),
        }
    }
}

/// Whether a frame's call asks nothing of a replica's blocks.
fn is_now(call: &Call) -> bool
    requires frame { IsFrameCall call.now }
    requires short { IsShort call.now }
    ensures now { result ≡ true → IsNow call.now }
    ensures range { result ≡ false → IsOnRange call.now }
{
    match call {
        Call::Read { length, .. } => *length > LONGEST_CALL,
        Call::Write { .. } => false,
        Call::Ping | Call::Other(_) | Call::Command(_) => true,
    }
}
