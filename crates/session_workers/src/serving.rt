ghost use Rattle.std.specs.Prelude.{◌≡◌, ◌≤◌, length, IfOk, OnErr};
ghost use Rattle.door_traits.specs.Sessions.{told_all};
ghost use Rattle.session_workers.specs.Served.{AreSessionsServed, AreCutShort};

use crate::table::{Table, lay_table};
use crate::tasks::{deal, do_tasks, take_all_in};
use door_traits::{Client, Sink, Source};
use run_report::EndedSession;
use std::alloc::{AllocError, Global};
use std::sync::Wait;
use std::thread::Threads;
use vol_units::VolumeSize;
use world_holder::World;

/// Sessions that have ended, and the World that they leave.
#[derive(Drop)]
pub struct ServedSessions {
    pub ended: Vec<EndedSession>,
    pub world: World,
}

/// Serves clients side by side, a worker in a thread for each, on a blank volume of that size with so many replicas, over
/// lines that never fail. The clients come back in their order, also where memory runs out: then those whose sessions go on
/// are served to their end.
pub fn serve_sessions<R: Threads + Wait + Sync, I: Source + Send + Drop, O: Sink + Send + Drop>(
    rt: &R,
    alloc: Global,
    size: VolumeSize,
    replicas: u8,
    clients: Vec<Client<I, O>>,
) -> (Vec<Client<I, O>>, Result<ServedSessions, AllocError>)
    requires replicas { (1 ≤ replicas) × (replicas ≤ 8) }
    requires sessions { (1 ≤ length clients.items) × (length clients.items ≤ 16) }
    ensures many { length result.0.items ≡ length clients.items }
    ensures served { IfOk result.1 (AreSessionsServed size replicas
        (told_all I.left I.faults O.contents O.faults clients.items)
        (told_all I.left I.faults O.contents O.faults result.0.items)) }
    ensures stopped { OnErr result.1 (AreCutShort
        (told_all I.left I.faults O.contents O.faults clients.items)
        (told_all I.left I.faults O.contents O.faults result.0.items)) }
{
    let sessions = clients.len() as u8;
    let table = match lay_table(alloc, size, replicas, sessions) {
        Ok(table) => table,
        Err(error) => return (clients, Err(error)),
    };
    let Table {
        desk,
        mut first,
        mut tasks,
        clients: mut back,
        mut ended,
    } = table;
    deal(&desk, &mut first, clients, &mut tasks);
    let tasks = do_tasks(rt, alloc, &desk, replicas, tasks);
    if !take_all_in(&desk, &mut first, tasks, &mut back, &mut ended) {
        return (back, Err(AllocError));
    }
    let world = Box::into_inner(desk.close(first).world);
    (back, Ok(ServedSessions { ended, world }))
}
