//! What comes next of a client.

ghost use Rattle.std.specs.Prelude.{◌≡◌, ℕ, List, Option, IfOk};
ghost use Rattle.client_input.specs.Giving.{HasGiven};
ghost use Rattle.frame_stream.specs.declared.frame.Frame.{Frame};
ghost use Rattle.volume_model.specs.PlainStep.{longest_call};
ghost use Rattle.session_workers.specs.Talking.{ComesBehind, IsEndOfInput, IsWhatFrameAsks, ReadCount};

use crate::serve::MOST_CALLS;
use client_input::{Input, feed_more};
use frame_stream::{CLOSE, Frame, FrameReader, Next};
use outer_traits::{OuterError, Source};
use run_report::SessionEnd;
use std::alloc::{AllocError, Global};
use std::sync::Wait;

/// What comes next.
#[derive(Debug, Drop)]
pub enum Coming {
    /// The frame of a call.
    Call(Frame),
    /// The end of the session.
    End(SessionEnd),
}

/// Waits for what comes next, where so many calls were made.
pub(crate) fn next_of<R: Wait, I: Source>(
    rt: &R,
    alloc: Global,
    calls: u64,
    reader: &mut FrameReader,
    piece: &mut Vec<u8>,
    source: &mut I,
) -> Result<Coming, AllocError>
    requires { reader.old.most ≡ longest_call }
    ensures comes { (left : Option (List ℕ)) (frames : List Frame) → HasGiven left (I.left source.old) reader.old frames
        → IfOk result (ComesBehind calls left (I.left source.new) reader.new frames) }
    ensures count { ReadCount result (I.faults source.old) (I.faults source.new) }
{
    for _ in rt.forever() {
        match reader.next()? {
            Next::Frame(frame) => return Ok(of_frame(frame, calls)),
            Next::Bad(place) => return Ok(Coming::End(SessionEnd::Frame(place))),
            Next::Short => {}
        }
        match feed_more(alloc, source, piece, reader) {
            Ok(Input::More) => {}
            Ok(Input::End) => return Ok(Coming::End(end_at(reader))),
            Err(OuterError::Failed) => return Ok(Coming::End(SessionEnd::ReadFault)),
            Err(OuterError::NoMemory) => return Err(AllocError),
        }
    }
    unreachable!()
}

/// What a whole frame asks, where so many calls were made.
fn of_frame(frame: Frame, calls: u64) -> Coming
    ensures { IsWhatFrameAsks calls frame result }
{
    if frame.head.kind == CLOSE {
        Coming::End(SessionEnd::Closed)
    } else if calls == MOST_CALLS {
        Coming::End(SessionEnd::Full)
    } else {
        Coming::Call(frame)
    }
}

/// How an input ends of which that is left.
fn end_at(reader: &FrameReader) -> SessionEnd
    ensures { IsEndOfInput reader.now result }
{
    if reader.is_empty() {
        SessionEnd::Ended
    } else {
        SessionEnd::Frame(reader.place())
    }
}
