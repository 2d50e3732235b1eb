//! One call of a client, and its reply.

ghost use Rattle.std.specs.Prelude.{◌≡◌, length};
ghost use Rattle.desk_lock.specs.Seats.{last_of};
ghost use Rattle.frame_stream.specs.Asked.{call_of};
ghost use Rattle.frame_stream.specs.Frames.{IsCall};
ghost use Rattle.frame_stream.specs.Replies.{reply_frame};
ghost use Rattle.frame_stream.specs.declared.frame.Frame.{Frame};
ghost use Rattle.client_input.specs.Replies.{IsToFrame};
ghost use Rattle.session_workers.specs.Talking.{MakesCall, WritesReply};
ghost use Rattle.session_serve.specs.Sessions.{MayCall};
ghost use Rattle.world_holder.specs.Laid.{laid};
ghost use Rattle.world_holder.specs.Lent.{IsSince};

use client_input::append_reply;
use frame_stream::{Frame, call_of};
use frame_wire::Head;
use outer_traits::{Line, OuterError, Sink, write_all};
use session_serve::{Desk, Reply, Seat, Session, WorldOnDesk};
use std::alloc::{AllocError, Global};
use std::sync::Wait;

/// How far a reply was written.
#[derive(Clone, Copy, Debug, PartialEq, Eq)]
pub enum Written {
    Whole,
    /// The sink failed.
    Cut,
}

/// Makes the call that a frame asks, and writes the frame that replies.
pub(crate) fn answer<R: Wait, L: Line + Drop, O: Sink>(
    rt: &R,
    alloc: Global,
    desk: &Desk<WorldOnDesk>,
    seat: Seat<WorldOnDesk>,
    session: &mut Session<L>,
    frame: Frame,
    buffer: &mut Vec<u8>,
    sink: &mut O,
) -> (Seat<WorldOnDesk>, Result<Written, AllocError>)
    requires may { MayCall L.count L.carried desk.now seat session.old }
    requires call { IsCall frame }
    ensures again { MayCall L.count L.carried desk.now result.0 session.new }
    ensures number { session.new.number ≡ session.old.number }
    ensures since { IsSince (laid (last_of seat)) (laid (last_of result.0)) }
    ensures answered { MakesCall session.old.number frame (laid (last_of seat)).book.entries
        (laid (last_of result.0)).book.entries (O.contents sink.old) (O.contents sink.new)
        (O.faults sink.old) (O.faults sink.new) result.1 }
{
    let head = frame.head;
    let (seat, reply) = session.call(rt, alloc, desk, seat, call_of(frame));
    match reply {
        Ok(reply) => (seat, write_reply(&head, &reply, buffer, sink)),
        Err(error) => (seat, Err(error)),
    }
}

/// Writes the frame that replies so to a frame with this header, in one piece.
fn write_reply<O: Sink>(
    head: &Head,
    reply: &Reply,
    buffer: &mut Vec<u8>,
    sink: &mut O,
) -> Result<Written, AllocError>
    requires { IsToFrame reply.now }
    ensures { (f : Frame) → f.head ≡ head.now → length f.body ≡ f.head.len
        → WritesReply (reply_frame head.now (call_of f) reply.now) (O.contents sink.old) (O.contents sink.new)
        (O.faults sink.old) (O.faults sink.new) result }
{
    buffer.clear();
    append_reply(head, reply, buffer)?;
    match write_all(sink, buffer) {
        Ok(()) => Ok(Written::Whole),
        Err(OuterError::Failed) => Ok(Written::Cut),
        Err(OuterError::NoMemory) => Err(AllocError),
    }
}
