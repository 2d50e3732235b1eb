//! The tasks of all sessions: they are dealt out, done side by side, and taken in.

ghost use Rattle.std.specs.Prelude.{◌≡◌, ◌≤◌, ◌++◌, ◌∷◌, [], true, length, map, All, None, Ok, vec_capacity, IfOk};
ghost use Rattle.desk_lock.specs.Seats.{known, number_of, made_of, last_of, told_of, seats_of, IsSeatOf};
ghost use Rattle.world_holder.specs.Laid.{laid};
ghost use Rattle.session_workers.specs.Tasks.{IsTask, IsBack, IsIn, IsDone, AreNumbered, AreDone};

use crate::task::{Task, work};
use door_traits::{Client, Sink, Source};
use run_report::EndedSession;
use std::alloc::{AllocError, Global};
use std::sync::Wait;
use std::thread;
use std::thread::Threads;
use world_holder::{AtSeat, Desk, Seat, WorldOnDesk};

/// Gives each client its seat. There is room for the tasks.
pub(crate) fn deal<I: Drop, O: Drop>(
    desk: &Desk<WorldOnDesk>,
    first: &mut Seat<WorldOnDesk>,
    clients: Vec<Client<I, O>>,
    tasks: &mut Vec<Task<I, O>>,
)
    requires seat { IsSeatOf desk.now first.old × (number_of first.old ≡ None) × (made_of first.old ≡ 0) }
    requires fresh { (known first.old).joined ≡ [] }
    requires few { length clients.items ≤ 16 }
    requires seats { length clients.items ≤ seats_of desk.now }
    requires many { length (laid (last_of first.old)).indices ≡ length clients.items }
    requires none { tasks.old.items ≡ [] }
    requires room { length clients.items ≤ vec_capacity tasks.old }
    ensures seat { IsSeatOf desk.now first.new × (number_of first.new ≡ None) }
    ensures fresh { ((known first.new).joined ≡ []) × (last_of first.new ≡ last_of first.old) }
    ensures made { made_of first.new ≡ length clients.items }
    ensures tasks { All (IsTask (length (laid (last_of first.old)).nodes) desk.now) tasks.new.items }
    ensures numbered { AreNumbered tasks.new.items }
    ensures clients { map (λ j. j.client) tasks.new.items ≡ clients.items }
{
    let mut number = 0;
    for client in clients {
        let at = AtSeat::split_off(desk, first, number);
        tasks
            .push(Task {
                number,
                seat: Some(at.seat),
                client,
                ended: Err(AllocError),
            })
            .unwrap();
        number += 1;
    }
}

/// A thread for each task does it; where none can be made, its caller does it.
pub(crate) fn do_tasks<R: Threads + Wait + Sync, I: Source + Send + Drop, O: Sink + Send + Drop>(
    rt: &R,
    alloc: Global,
    desk: &Desk<WorldOnDesk>,
    replicas: u8,
    tasks: Vec<Task<I, O>>,
) -> Vec<Task<I, O>>
    requires tasks { All (IsTask replicas desk.now) tasks.items }
    requires few { replicas ≤ 8 }
    ensures { AreDone I.left I.faults O.contents O.faults desk.now tasks.items result.items }
{
    let mut tasks = tasks;
    do_all(rt, alloc, desk, replicas, tasks.as_mut_slice());
    tasks
}

fn do_all<R: Threads + Wait + Sync, I: Source + Send + Drop, O: Sink + Send + Drop>(
    rt: &R,
    alloc: Global,
    desk: &Desk<WorldOnDesk>,
    replicas: u8,
    tasks: &mut [Task<I, O>],
)
    requires tasks { All (IsTask replicas desk.now) tasks.old }
    requires few { replicas ≤ 8 }
    ensures { AreDone I.left I.faults O.contents O.faults desk.now tasks.old tasks.new }
{
    let threads = tasks.len().max(1);
    thread::for_each_mut(
        rt,
        tasks,
        threads,
        &|_, task: &mut Task<I, O>|
            requires { IsTask replicas desk.now task.now × (replicas ≤ 8) }
            ensures { IsDone I.left I.faults O.contents O.faults desk.entry.now task.entry.now task.exit.now }
        {
            work(rt, alloc, desk, replicas, task);
        },
    );
}

/// Joins all seats, and takes the clients and their sessions' ends out of the tasks, in their order. Says whether each
/// session has ended. There is room for the clients.
pub(crate) fn take_all_in<I: Source + Drop, O: Sink + Drop>(
    desk: &Desk<WorldOnDesk>,
    first: &mut Seat<WorldOnDesk>,
    tasks: Vec<Task<I, O>>,
    clients: &mut Vec<Client<I, O>>,
    ended: &mut Vec<EndedSession>,
) -> bool
    requires first { IsSeatOf desk.now first.old × (number_of first.old ≡ None) }
    requires back { All (IsBack desk.now) tasks.items }
    requires numbered { AreNumbered tasks.items }
    requires none { (clients.old.items ≡ []) × (ended.old.items ≡ []) }
    requires room { length tasks.items ≤ vec_capacity clients.old }
    ensures first { IsSeatOf desk.now first.new × (number_of first.new ≡ None) }
    ensures same { (made_of first.new ≡ made_of first.old) × (last_of first.new ≡ last_of first.old) }
    ensures joined { All (IsIn (known first.new).joined (told_of first.new)) tasks.items }
    ensures clients { clients.new.items ≡ map (λ j. j.client) tasks.items }
    ensures ended { result ≡ true → map Ok ended.new.items ≡ map (λ j. j.ended) tasks.items }
{
    let mut well = true;
    for task in tasks {
        let Task {
            number: _,
            seat,
            client,
            ended: end,
        } = task;
        desk.join(first, seat.unwrap());
        clients.push(client).unwrap();
        let kept = keep(ended, end);
        well = both(well, kept);
    }
    well
}

/// Keeps how a session has ended. Says whether it has, and memory sufficed.
fn keep(ended: &mut Vec<EndedSession>, end: Result<EndedSession, AllocError>) -> bool
    ensures { result ≡ true → (e : EndedSession) × (end ≡ Ok e) × (ended.new.items ≡ ended.old.items ++ e ∷ []) }
{
    match end {
        Ok(e) => ended.push(e).is_ok(),
        Err(_) => false,
    }
}

fn both(a: bool, b: bool) -> bool
    ensures { result ≡ true → (a ≡ true) × (b ≡ true) }
{
    a && b
}
