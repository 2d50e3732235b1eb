//! As many threads as there are streams.
ghost use Rattle.std.specs.Prelude.{◌≡◌, ℕ, ◌<◌, ◌≤◌, true, map, slice_index_or, length, [], Some, None, IfOk};
ghost use Rattle.desk_lock.specs.Seats.{known, number_of, made_of, last_of, seats_of, IsSeatOf};
ghost use Rattle.desk_trial.specs.Books.{note_of, notes_in, streams_of, call_of};
ghost use Rattle.desk_trial.specs.Jobs.{IsJob, IsDone, HasPair};

use crate::book::Book;
use crate::looks::look_on;
use crate::workers::serve_all;
use desk_lock::{Desk, Seat};
use std::alloc::{AllocError, Global};
use std::sync::Wait;
use std::thread;
use std::thread::Threads;

/// What one worker is to do.
#[derive(Drop)]
pub struct Job {
    pub seat: Seat<Book>,
    pub stream: u64,
    pub values: Vec<u64>,
    /// How many looks come after the calls.
    pub looks: u64,
}

/// What is left of a job: its seat, and whether memory sufficed.
#[derive(Drop)]
pub struct Done {
    pub seat: Seat<Book>,
    pub ok: bool,
}

/// As many threads as there are lists serve a stream each. One whose list is empty only looks, so many times. The book has
/// the notes of each, in order, and no others.
pub fn serve_each<R: Threads + Wait + Sync>(
    rt: &R,
    alloc: Global,
    book: Book,
    lists: Vec<Vec<u64>>,
    looks: u64,
) -> Result<Book, AllocError>
    requires blank { (book.notes.items ≡ []) × ((n : ℕ) → call_of book n ≡ None) }
    requires streams { (streams_of book ≡ length lists.items) × (1 ≤ length lists.items) }
    ensures each { IfOk result (λ b. (n : ℕ) (d : _) → n < length lists.items
        → notes_in n b ≡ map (note_of n) (slice_index_or lists.items n d).items) }
    ensures others { IfOk result (λ b. (n : ℕ) → length lists.items ≤ n → notes_in n b ≡ []) }
{
    let seats = lists.len() as u64;
    let (desk, mut seat) = Desk::new(alloc, book, seats)?;
    let jobs = deal(alloc, &desk, &mut seat, lists, looks)?;
    let dones = run_jobs(rt, &desk, jobs)?;
    let ok = gather(&desk, &mut seat, dones);
    let book = desk.close(seat);
    if ok { Ok(book) } else { Err(AllocError) }
}

fn run_job<R: Wait>(rt: &R, desk: &Desk<Book>, job: Job) -> Done
    requires { IsJob desk.now job }
    ensures { IsDone desk.now job result }
{
    let Job {
        seat,
        stream,
        values,
        looks,
    } = job;
    let (seat, ok) = serve_all(rt, desk, seat, stream, values.as_slice());
    let seat = look_on(desk, seat, looks);
    Done { seat, ok }
}

fn run_jobs<R: Threads + Wait + Sync>(
    rt: &R,
    desk: &Desk<Book>,
    jobs: Vec<Job>,
) -> Result<Vec<Done>, AllocError>
    requires { (k : ℕ) (d : _) → k < length jobs.items → IsJob desk.now (slice_index_or jobs.items k d) }
    ensures len { IfOk result (λ v. length v.items ≡ length jobs.items) }
    ensures each { IfOk result (λ v. (k : ℕ) (d e : _) → k < length jobs.items
        → IsDone desk.now (slice_index_or jobs.items k d) (slice_index_or v.items k e)) }
{
    thread::map_vec(
        rt,
        jobs,
        &|job: Job| -> Done
            requires { IsJob desk.now job }
            ensures { IsDone desk.entry.now job result }
        { run_job(rt, desk, job) },
    )
}

// Splits a seat off for each list.
fn deal(
    alloc: Global,
    desk: &Desk<Book>,
    seat: &mut Seat<Book>,
    lists: Vec<Vec<u64>>,
    looks: u64,
) -> Result<Vec<Job>, AllocError>
    requires seat { IsSeatOf desk.now seat.old × (number_of seat.old ≡ None) × (made_of seat.old ≡ 0)
        × ((known seat.old).joined ≡ []) }
    requires lists { (length lists.items ≤ seats_of desk.now) × (streams_of (last_of seat.old) ≡ length lists.items) }
    ensures seat { IsSeatOf desk.now seat.new × (number_of seat.new ≡ None) × ((known seat.new).joined ≡ []) }
    ensures made { IfOk result (λ v. (length v.items ≡ length lists.items) × (made_of seat.new ≡ length lists.items)) }
    ensures jobs { IfOk result (λ v. (k : ℕ) (d : _) → k < length v.items
        → IsJob desk.now (slice_index_or v.items k d) × ((slice_index_or v.items k d).stream ≡ k)) }
    ensures values { IfOk result (λ v. map (λ j. j.values) v.items ≡ lists.items) }
{
    let mut jobs = Vec::new(alloc);
    let mut stream = 0;
    for values in lists {
        let seat = desk.split(seat);
        let looks = if values.is_empty() { looks } else { 0 };
        jobs.push(Job {
            seat,
            stream,
            values,
            looks,
        })?;
        stream += 1;
    }
    Ok(jobs)
}

// Joins all seats, and says whether all jobs were done.
fn gather(desk: &Desk<Book>, seat: &mut Seat<Book>, all: Vec<Done>) -> bool
    requires seat { IsSeatOf desk.now seat.old × (number_of seat.old ≡ None) }
    requires all { (k : ℕ) (d : _) → k < length all.items → IsSeatOf desk.now (slice_index_or all.items k d).seat
        × (number_of (slice_index_or all.items k d).seat ≡ Some k) }
    ensures seat { IsSeatOf desk.now seat.new × (number_of seat.new ≡ None) × (made_of seat.new ≡ made_of seat.old) }
    ensures pairs { (k : ℕ) (d : _) → k < length all.items
        → HasPair k (last_of (slice_index_or all.items k d).seat) (known seat.new).joined }
    ensures ok { result ≡ true → (k : ℕ) (d : _) → k < length all.items → (slice_index_or all.items k d).ok ≡ true }
{
    let mut ok = true;
    for done in all {
        let Done {
            seat: other,
            ok: one,
        } = done;
        desk.join(seat, other);
        ok = ok && one;
    }
    ok
}
