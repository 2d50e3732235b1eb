//! The worker of a stream, as a value.

ghost use Rattle.std.specs.Prelude.{◌≡◌, map, All, OnOk, OnErr};
ghost use Rattle.frame_stream.specs.Asked.{call_of};
ghost use Rattle.stream_steps.specs.Steps.{IsFrameCall};
ghost use Rattle.client_worker.specs.Asks.{IsAsked, IsShort};
ghost use Rattle.client_worker.specs.Serving.{GrewBy, Grew, GrewSome};
ghost use Rattle.client_worker.specs.Working.{IsIdle, Stays};

use crate::carrier::Carrier;
use crate::channel::Channel;
use crate::rooms::Rooms;
use frame_stream::call_of;
use outer_traits::Line;
use script_text::Frames;
use std::alloc::{AllocError, Global};
use std::marker::Model;
use std::sync::Wait;
use stream_steps::ClientSteps;
use volume_model::Call;

/// What serves a stream: what carries its calls, and their memory, which stays from call to call. Between two of them
/// none is open.
#[derive(Drop)]
pub struct Worker<C: ClientSteps + Drop, L: Line + Drop> {
    carrier: Carrier<C, L>,
    rooms: Rooms,
}

impl<C: ClientSteps + Drop, L: Line + Drop> Model for Worker<C, L> {
    ghost use Rattle.std.specs.Prelude.{◌≡◌, []};
    ghost use Rattle.client_worker.specs.Working.{Work};

    ghost Value = { Work C L };

    ghost view = { λ w. w.carrier };

    ghost invariant = { λ w. (C.mine w.carrier.steps).running ≡ [] };
}

impl<C: ClientSteps + Drop, L: Line + Drop> Worker<C, L> {
    /// With no memory yet.
    pub fn new(alloc: Global, steps: C, channels: Vec<Channel<L>>) -> Worker<C, L>
        requires { IsIdle C.ready C.mine L.count L.carried (record { steps = steps; channels = channels.items }) }
        ensures { result ≡ record { steps = steps; channels = channels.items } }
    {
        Worker::with_rooms(steps, channels, Rooms::new(alloc))
    }

    /// With the memory that the calls of another had.
    pub fn with_rooms(steps: C, channels: Vec<Channel<L>>, rooms: Rooms) -> Worker<C, L>
        requires { IsIdle C.ready C.mine L.count L.carried (record { steps = steps; channels = channels.items }) }
        ensures { result ≡ record { steps = steps; channels = channels.items } }
    {
        Worker {
            carrier: Carrier { steps, channels },
            rooms,
        }
    }

    /// The steps and the lines, once no more is to be served.
    pub fn into_parts(self) -> (C, Vec<Channel<L>>)
        ensures parts { self ≡ record { steps = result.0; channels = result.1.items } }
        ensures idle { IsIdle C.ready C.mine L.count L.carried self }
    {
        let (steps, channels, _rooms) = self.into_all();
        (steps, channels)
    }

    /// The same, and the memory of its calls for those of another.
    pub fn into_all(self) -> (C, Vec<Channel<L>>, Rooms)
        ensures parts { self ≡ record { steps = result.0; channels = result.1.items } }
        ensures idle { IsIdle C.ready C.mine L.count L.carried self }
    {
        let Worker { carrier, rooms } = self;
        (carrier.steps, carrier.channels, rooms)
    }

    /// Takes the calls of a stream's frames one after another, and carries each to the replicas. Out of memory leaves
    /// none of them open, and what was done before it stands.
    pub fn run_stream<R: Wait>(
        &mut self,
        rt: &R,
        alloc: Global,
        frames: &Frames,
    ) -> Result<(), AllocError>
        requires asked { All IsAsked frames.now }
        ensures stays { Stays C.home L.ends self.old self.new }
        ensures ok { OnOk result (Grew (map call_of frames.now) (C.mine self.old.steps) (C.mine self.new.steps)) }
        ensures err { OnErr result (GrewSome (map call_of frames.now) (C.mine self.old.steps) (C.mine self.new.steps)) }
    {
        // What holds of the worker between its calls, a proof learns here.
        let _ = &self.carrier;
        let mut left = frames.left(alloc)?;
        while let Some(frame) = left.next()? {
            self.serve_call(rt, alloc, call_of(frame))?;
        }
        Ok(())
    }

    /// Takes one call of the stream to its answer. Out of memory leaves it unasked.
    pub fn serve_call<R: Wait>(
        &mut self,
        rt: &R,
        alloc: Global,
        call: Call,
    ) -> Result<(), AllocError>
        requires frame { IsFrameCall call }
        requires short { IsShort call }
        ensures stays { Stays C.home L.ends self.old self.new }
        ensures ok { OnOk result (GrewBy call (C.mine self.old.steps) (C.mine self.new.steps)) }
        ensures err { OnErr result (C.mine self.new.steps ≡ C.mine self.old.steps) }
    {
        self.carrier.serve_one(rt, alloc, call, &mut self.rooms)
    }
}
