//! A worker of a session: what it is given, and how it serves the client.

ghost use Rattle.std.specs.Prelude.{◌≡◌, ◌≤◌, length, IfOk};
ghost use Rattle.session_workers.specs.Tasks.{IsTask, IsDone};

use crate::serve::serve_client;
use client_worker::Channel;
use door_traits::{Client, Sink, Source};
use outer_memory::NoFaultLine;
use outer_traits::Ends;
use run_report::EndedSession;
use session_serve::Session;
use std::alloc::{AllocError, Global};
use std::sync::Wait;
use world_holder::{Desk, Seat, WorldOnDesk};

/// A client, and what its worker has.
#[derive(Drop)]
pub(crate) struct Task<I: Drop, O: Drop> {
    pub(crate) number: u8,
    /// None while the worker has it in hand.
    pub(crate) seat: Option<Seat<WorldOnDesk>>,
    pub(crate) client: Client<I, O>,
    /// How the session has ended; an error, if memory ran out in it.
    pub(crate) ended: Result<EndedSession, AllocError>,
}

/// Serves the client until its session ends, unless memory runs out, over a line to each of so many replicas.
pub(crate) fn work<R: Wait, I: Source + Drop, O: Sink + Drop>(
    rt: &R,
    alloc: Global,
    desk: &Desk<WorldOnDesk>,
    replicas: u8,
    task: &mut Task<I, O>,
)
    requires task { IsTask replicas desk.now task.old }
    requires few { replicas ≤ 8 }
    ensures { IsDone I.left I.faults O.contents O.faults desk.now task.old task.new }
{
    let Ok(channels) = lines(alloc, task.number, replicas) else {
        task.ended = Err(AllocError);
        return;
    };
    let mut session = Session::new(alloc, task.number, channels);
    let seat = task.seat.take().unwrap();
    let (seat, ended) = serve_client(rt, alloc, desk, seat, &mut session, &mut task.client);
    task.seat = Some(seat);
    task.ended = ended;
}

/// A line to each replica, which never fails.
fn lines(alloc: Global, worker: u8, replicas: u8) -> Result<Vec<Channel<NoFaultLine>>, AllocError>
    ensures { IfOk result (λ channels. length channels.items ≡ replicas) }
{
    let mut channels = Vec::with_capacity(alloc, replicas as usize)?;
    for replica in 0..replicas {
        let ends = Ends { worker, replica };
        channels.push(Channel::new(NoFaultLine { ends }))?;
    }
    Ok(channels)
}
