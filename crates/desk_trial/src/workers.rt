//! Workers at a desk: one function for each turn.
ghost use Rattle.std.specs.Prelude.{◌≡◌, ℕ, ◌<◌, true, map, [], ◌∷◌, ◌++◌, OnOk, OnErr, Some};
ghost use Rattle.desk_lock.specs.Seats.{number_of, last_of, IsSeatOf};
ghost use Rattle.desk_trial.specs.Books.{note_of, notes_in, streams_of, call_of};

use crate::book::Book;
use desk_lock::{Desk, Seat};
use std::alloc::AllocError;
use std::sync::Wait;

// Begins a call of the seat's stream.
fn begin<R: Wait>(rt: &R, desk: &Desk<Book>, seat: &mut Seat<Book>, stream: u64, value: u64)
    requires seat { IsSeatOf desk.now seat.old × (number_of seat.old ≡ Some stream) }
    requires inside { stream < streams_of (last_of seat.old) }
    ensures seat { IsSeatOf desk.now seat.new × (number_of seat.new ≡ Some stream) }
    ensures inside { streams_of (last_of seat.new) ≡ streams_of (last_of seat.old) }
    ensures mine { notes_in stream (last_of seat.new) ≡ notes_in stream (last_of seat.old) }
    ensures begun { call_of (last_of seat.new) stream ≡ Some value }
{
    let mut guard = desk.enter(rt, seat);
    guard.state.begin(stream, value);
    guard.leave();
}

// Notes the call that was begun. After `Err` it is still begun.
fn finish<R: Wait>(
    rt: &R,
    desk: &Desk<Book>,
    seat: &mut Seat<Book>,
    stream: u64,
) -> Result<(), AllocError>
    requires seat { IsSeatOf desk.now seat.old × (number_of seat.old ≡ Some stream) }
    requires inside { stream < streams_of (last_of seat.old) }
    requires begun { (x : ℕ) × (call_of (last_of seat.old) stream ≡ Some x) }
    ensures seat { IsSeatOf desk.now seat.new × (number_of seat.new ≡ Some stream) }
    ensures inside { streams_of (last_of seat.new) ≡ streams_of (last_of seat.old) }
    ensures mine { (x : ℕ) → call_of (last_of seat.old) stream ≡ Some x
        → OnOk result
        (notes_in stream (last_of seat.new) ≡ notes_in stream (last_of seat.old) ++ note_of stream x ∷ []) }
    ensures err { OnErr result (notes_in stream (last_of seat.new) ≡ notes_in stream (last_of seat.old)) }
{
    let mut guard = desk.enter(rt, seat);
    let done = guard.state.finish(stream);
    guard.leave();
    done
}

/// One call of the seat's stream, in two turns: it is begun in the first and noted in the second.
pub fn serve<R: Wait>(
    rt: &R,
    desk: &Desk<Book>,
    seat: &mut Seat<Book>,
    stream: u64,
    value: u64,
) -> Result<(), AllocError>
    requires seat { IsSeatOf desk.now seat.old × (number_of seat.old ≡ Some stream) }
    requires inside { stream < streams_of (last_of seat.old) }
    ensures seat { IsSeatOf desk.now seat.new × (number_of seat.new ≡ Some stream) }
    ensures inside { streams_of (last_of seat.new) ≡ streams_of (last_of seat.old) }
    ensures mine { OnOk result
        (notes_in stream (last_of seat.new) ≡ notes_in stream (last_of seat.old) ++ note_of stream value ∷ []) }
{
    begin(rt, desk, seat, stream, value);
    finish(rt, desk, seat, stream)
}

/// Serves the values in order, and says whether memory sufficed.
pub fn serve_all<R: Wait>(
    rt: &R,
    desk: &Desk<Book>,
    mut seat: Seat<Book>,
    stream: u64,
    values: &[u64],
) -> (Seat<Book>, bool)
    requires seat { IsSeatOf desk.now seat × (number_of seat ≡ Some stream) }
    requires inside { stream < streams_of (last_of seat) }
    ensures seat { IsSeatOf desk.now result.0 × (number_of result.0 ≡ Some stream) }
    ensures mine { result.1 ≡ true → notes_in stream (last_of result.0)
        ≡ notes_in stream (last_of seat) ++ map (note_of stream) values.now }
{
    for value in values {
        if serve(rt, desk, &mut seat, stream, *value).is_err() {
            return (seat, false);
        }
    }
    (seat, true)
}
