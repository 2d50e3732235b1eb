//! Seats that only look: they see how long the journal is, and take no turn.
ghost use Rattle.std.specs.Prelude.{◌≡◌, length, IfOk};
ghost use Rattle.desk_lock.specs.Seats.{known, number_of, last_of, IsSeatOf};
ghost use Rattle.desk_trial.specs.Books.{streams_of};

use crate::book::Book;
use crate::workers::{serve, serve_all};
use desk_lock::{Desk, Seat};
use std::alloc::{AllocError, Global};
use std::sync::{Barrier, Wait};
use std::thread;
use std::thread::Threads;

/// What another does while one looks.
#[derive(Clone, Copy)]
pub enum Beside {
    /// It has the state.
    Holds,
    /// It waits, and nobody has the state.
    Waits,
}

/// Looks so many times. No answer is less than the one before, and the seat is as it was.
pub fn look_on(desk: &Desk<Book>, mut seat: Seat<Book>, looks: u64) -> Seat<Book>
    requires { IsSeatOf desk.now seat }
    ensures { IsSeatOf desk.now result × (known result ≡ known seat) }
{
    let mut before = 0;
    for _ in 0..looks {
        let told = desk.seen_now(&mut seat);
        if told < before {
            unreachable!()
        }
        before = told;
    }
    seat
}

/// How long the journal is for the first seat, once it has back the one seat that made calls, of these values.
pub fn told_of_all<R: Wait>(rt: &R, alloc: Global, values: &[u64]) -> Result<u64, AllocError>
    ensures { IfOk result (λ told. told ≡ length values.now) }
{
    let book = Book::with_streams(alloc, 1)?;
    let (desk, mut first) = Desk::new(alloc, book, 1)?;
    let seat = desk.split(&mut first);
    let (seat, ok) = serve_all(rt, &desk, seat, 0, values);
    desk.join(&mut first, seat);
    let told = desk.seen_now(&mut first);
    let _ = desk.close(first);
    if ok { Ok(told) } else { Err(AllocError) }
}

/// One thread: a seat makes so many calls, and another looks before each, while the first has the state, and after it.
/// How many of the looks told of just the calls that were made.
pub fn told_at_once<R: Wait>(rt: &R, alloc: Global, calls: u64) -> Result<u64, AllocError> {
    let book = Book::with_streams(alloc, 2)?;
    let (desk, mut first) = Desk::new(alloc, book, 2)?;
    let mut caller = desk.split(&mut first);
    let mut looker = desk.split(&mut first);
    let mut right = 0u64;
    for call in 0..calls {
        if look_inside(rt, &desk, &mut caller, &mut looker) == call {
            right = right.saturating_add(1);
        }
        serve(rt, &desk, &mut caller, 0, call)?;
        if desk.seen_now(&mut looker) == call + 1 {
            right = right.saturating_add(1);
        }
    }
    Ok(right)
}

// What one is told while another has the state.
fn look_inside<R: Wait>(
    rt: &R,
    desk: &Desk<Book>,
    holder: &mut Seat<Book>,
    looker: &mut Seat<Book>,
) -> u64
    requires seats { IsSeatOf desk.now holder.old × IsSeatOf desk.now looker.old }
    ensures seats { IsSeatOf desk.now holder.new × IsSeatOf desk.now looker.new }
    ensures holder { (number_of holder.new ≡ number_of holder.old)
        × (streams_of (last_of holder.new) ≡ streams_of (last_of holder.old)) }
{
    let guard = desk.enter(rt, holder);
    let told = desk.seen_now(looker);
    guard.leave();
    told
}

/// Two threads: one looks so many times, and the other has the state, or waits, until that is done.
pub fn look_beside<R: Threads + Wait + Sync>(
    rt: &R,
    alloc: Global,
    looks: u64,
    beside: Beside,
) -> Result<(), AllocError> {
    let book = Book::with_streams(alloc, 2)?;
    let (desk, mut first) = Desk::new(alloc, book, 2)?;
    let mut holder = desk.split(&mut first);
    let looker = desk.split(&mut first);
    let gate = Barrier::new(2);
    thread::join(
        rt,
        || match beside {
            Beside::Holds => hold(rt, &desk, &mut holder, &gate),
            Beside::Waits => pass_twice(rt, &gate),
        },
        || -> Seat<Book>
            requires { IsSeatOf desk looker }
            ensures { IsSeatOf desk result }
        { look_between(rt, &desk, looker, looks, &gate) },
    );
    Ok(())
}

// Has the state from the first time that all are at the gate to the second.
fn hold<R: Wait>(rt: &R, desk: &Desk<Book>, seat: &mut Seat<Book>, gate: &Barrier)
    requires { IsSeatOf desk.now seat.old }
{
    let guard = desk.enter(rt, seat);
    pass_twice(rt, gate);
    guard.leave();
}

// Looks from the first time to the second.
fn look_between<R: Wait>(
    rt: &R,
    desk: &Desk<Book>,
    seat: Seat<Book>,
    looks: u64,
    gate: &Barrier,
) -> Seat<Book>
    requires { IsSeatOf desk.now seat }
    ensures { IsSeatOf desk.now result }
{
    gate.wait(rt);
    let seat = look_on(desk, seat, looks);
    gate.wait(rt);
    seat
}

fn pass_twice<R: Wait>(rt: &R, gate: &Barrier) {
    gate.wait(rt);
    gate.wait(rt);
}
