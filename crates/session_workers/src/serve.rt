//! The calls of a client, served one after another until the session ends.

ghost use Rattle.std.specs.Prelude.{◌≡◌, ◌≤◌, [], length, IfOk};
ghost use Rattle.desk_lock.specs.Seats.{last_of, told_of};
ghost use Rattle.door_traits.specs.Sessions.{told};
ghost use Rattle.session_workers.specs.Clients.{SessionComesTo};
ghost use Rattle.session_workers.specs.Talking.{HasServedCalls};
ghost use Rattle.session_serve.specs.Sessions.{MayCall};
ghost use Rattle.volume_model.specs.History.{answers_of};
ghost use Rattle.world_holder.specs.Laid.{laid};
ghost use Rattle.world_holder.specs.Lent.{IsSince};

use crate::answer::{Written, answer};
use crate::coming::{Coming, next_of};
use door_traits::{Client, Sink, Source};
use frame_stream::FrameReader;
use outer_traits::Line;
use run_report::{EndedSession, SessionEnd};
use session_serve::{Desk, Seat, Session, WorldOnDesk};
use std::alloc::{AllocError, Global};
use std::sync::Wait;
use vol_units::LONGEST_CALL;

/// How many calls a session may make.
pub const MOST_CALLS: u64 = 4096;

/// Serves a client at the session's seat, which it gives back: until a Close, the end of the input, a place where no whole
/// frame stands, a call more than a session may make, or a fault of the source or the sink. Each reply is written before
/// the next call is made. At the end the session looks how long the journal is.
pub(crate) fn serve_client<R: Wait, I: Source + Drop, O: Sink + Drop, L: Line + Drop>(
    rt: &R,
    alloc: Global,
    desk: &Desk<WorldOnDesk>,
    seat: Seat<WorldOnDesk>,
    session: &mut Session<L>,
    client: &mut Client<I, O>,
) -> (Seat<WorldOnDesk>, Result<EndedSession, AllocError>)
    requires may { MayCall L.count L.carried desk.now seat session.old }
    requires fresh { answers_of session.old.number (laid (last_of seat)).book.entries ≡ [] }
    ensures again { MayCall L.count L.carried desk.now result.0 session.new }
    ensures number { session.new.number ≡ session.old.number }
    ensures since { IsSince (laid (last_of seat)) (laid (last_of result.0)) }
    ensures served { SessionComesTo session.old.number
        (told (I.left client.old.source) (I.faults client.old.source) (O.contents client.old.sink) (O.faults client.old.sink))
        (told (I.left client.new.source) (I.faults client.new.source) (O.contents client.new.sink) (O.faults client.new.sink))
        (laid (last_of result.0)).book.entries result.1 }
    ensures seen { IfOk result.1 (λ e. (length (laid (last_of result.0)).book.entries ≤ e.seen)
        × (told_of result.0 ≡ e.seen)) }
{
    let (seat, ended) = serve_calls(rt, alloc, desk, seat, session, client);
    let (end, calls) = match ended {
        Ok(ended) => ended,
        Err(error) => return (seat, Err(error)),
    };
    let mut seat = seat;
    let seen = desk.seen_now(&mut seat);
    (seat, Ok(EndedSession { end, calls, seen }))
}

/// Serves the calls, and says how the session ended, and how many they were.
fn serve_calls<R: Wait, I: Source + Drop, O: Sink + Drop, L: Line + Drop>(
    rt: &R,
    alloc: Global,
    desk: &Desk<WorldOnDesk>,
    seat: Seat<WorldOnDesk>,
    session: &mut Session<L>,
    client: &mut Client<I, O>,
) -> (Seat<WorldOnDesk>, Result<(SessionEnd, u64), AllocError>)
    requires may { MayCall L.count L.carried desk.now seat session.old }
    requires fresh { answers_of session.old.number (laid (last_of seat)).book.entries ≡ [] }
    ensures again { MayCall L.count L.carried desk.now result.0 session.new }
    ensures number { session.new.number ≡ session.old.number }
    ensures since { IsSince (laid (last_of seat)) (laid (last_of result.0)) }
    ensures served { HasServedCalls session.old.number
        (told (I.left client.old.source) (I.faults client.old.source) (O.contents client.old.sink) (O.faults client.old.sink))
        (told (I.left client.new.source) (I.faults client.new.source) (O.contents client.new.sink) (O.faults client.new.sink))
        (laid (last_of result.0)).book.entries result.1 }
{
    let mut seat = seat;
    let mut calls = 0;
    let mut reader = FrameReader::new(alloc, LONGEST_CALL);
    let mut piece = Vec::new(alloc);
    let mut buffer = Vec::new(alloc);
    for _ in rt.forever() {
        let next = next_of(
            rt,
            alloc,
            calls,
            &mut reader,
            &mut piece,
            &mut client.source,
        );
        let frame = match next {
            Ok(Coming::Call(frame)) => frame,
            Ok(Coming::End(end)) => return (seat, Ok((end, calls))),
            Err(error) => return (seat, Err(error)),
        };
        let (later, answered) = answer(
            rt,
            alloc,
            desk,
            seat,
            session,
            frame,
            &mut buffer,
            &mut client.sink,
        );
        seat = later;
        let written = match answered {
            Ok(written) => written,
            Err(error) => return (seat, Err(error)),
        };
        calls += 1;
        match written {
            Written::Whole => {}
            Written::Cut => return (seat, Ok((SessionEnd::WriteFault, calls))),
        }
    }
    unreachable!()
}
