//! The frames of a client, served until it closes, or its input ends.

ghost use Rattle.std.specs.Prelude.{◌≡◌, [], IfOk, OnOk, OnErr};
ghost use Rattle.std.specs.Io.KnownBytes.{Appends};
ghost use Rattle.outer_traits.specs.Passing.{WritesPrefix};
ghost use Rattle.volume_model.specs.PlainStep.{longest_call};
ghost use Rattle.client_input.specs.Feeding.{FeedsMore};
ghost use Rattle.replica_serve.specs.Ends.{HasServed, ServeCounts};
ghost use Rattle.replica_serve.specs.Turns.{TakesTurn, ServesAll, ServesSome, WriteCounts, ReadCounts};

use crate::answer::answer_call;
use crate::error::ServeError;
use client_input::{Input, feed_more};
use frame_stream::{Asked, Frame, FrameReader, Next, of_frame};
use outer_traits::{OuterError, Sink, Source, write_all};
use replica_node::ReplicaNode;
use std::alloc::{AllocError, Global};
use std::sync::Wait;
use vol_units::LONGEST_CALL;

/// How many bytes of replies wait at most until they are written.
const PIECE: usize = 65_536;

/// What became of one frame.
#[derive(Clone, Copy, Debug, PartialEq, Eq)]
pub enum Turn {
    Answered,
    Closed,
}

/// Why no frame is left to serve.
#[derive(Clone, Copy, Debug, PartialEq, Eq)]
pub enum Served {
    /// All that are there are served.
    All,
    /// A Close was met.
    Closed,
    /// No whole frame stands at this place, whatever comes behind it.
    Bad(u64),
}

/// Serves a replica to the client whose frames the source gives, and writes the replies to the sink: until a Close, the
/// end of the input, or a place where no whole frame stands. Replies are written once no whole frame is left to serve,
/// so that a client may wait for one before it goes on.
pub fn serve_replica<R: Wait, S: Source, K: Sink>(
    rt: &R,
    alloc: Global,
    source: &mut S,
    sink: &mut K,
    node: ReplicaNode,
) -> Result<(), ServeError>
    ensures served { HasServed node.disk (S.left source.old) (K.contents sink.old) (K.contents sink.new) result }
    ensures counts { ServeCounts result (S.faults source.old) (S.faults source.new)
        (K.faults sink.old) (K.faults sink.new) }
{
    let mut node = node;
    let mut reader = FrameReader::new(alloc, LONGEST_CALL);
    let mut replies = Vec::new(alloc);
    let mut piece = Vec::new(alloc);
    for _ in rt.forever() {
        let served = serve_waiting(alloc, &mut reader, &mut node, &mut replies, sink)?;
        write_out(sink, &mut replies)?;
        match served {
            Served::All => {}
            Served::Closed => return Ok(()),
            Served::Bad(place) => return Err(ServeError::Frame(place)),
        }
        match read_on(alloc, source, &mut piece, &mut reader)? {
            Input::More => {}
            Input::End if reader.is_empty() => return Ok(()),
            Input::End => return Err(ServeError::Frame(reader.place())),
        }
    }
    unreachable!()
}

/// Serves all frames that are there whole. Replies are written where many wait.
fn serve_waiting<K: Sink>(
    alloc: Global,
    reader: &mut FrameReader,
    node: &mut ReplicaNode,
    replies: &mut Vec<u8>,
    sink: &mut K,
) -> Result<Served, ServeError>
    requires { reader.old.most ≡ longest_call }
    ensures all { IfOk result (ServesAll reader.old reader.new node.old.disk node.new.disk
        replies.old.items replies.new.items (K.contents sink.old) (K.contents sink.new)) }
    ensures some { OnErr result (ServesSome reader.old node.old.disk replies.old.items
        (K.contents sink.old) (K.contents sink.new)) }
    ensures counts { WriteCounts result (K.faults sink.old) (K.faults sink.new) }
{
    loop {
        let frame = match reader.next()? {
            Next::Frame(frame) => frame,
            Next::Short => return Ok(Served::All),
            Next::Bad(place) => return Ok(Served::Bad(place)),
        };
        match serve_frame(alloc, frame, node, replies)? {
            Turn::Answered => {}
            Turn::Closed => return Ok(Served::Closed),
        }
        if replies.len() >= PIECE {
            write_out(sink, replies)?;
        }
    }
}

/// Answers the call that a frame asks, unless it is a Close.
fn serve_frame(
    alloc: Global,
    frame: Frame,
    node: &mut ReplicaNode,
    replies: &mut Vec<u8>,
) -> Result<Turn, AllocError>
    ensures { IfOk result (TakesTurn frame node.old.disk node.new.disk replies.old.items replies.new.items) }
{
    let head = frame.head;
    match of_frame(frame) {
        Asked::End => Ok(Turn::Closed),
        Asked::Call(call) => {
            answer_call(alloc, node, &head, &call, replies)?;
            Ok(Turn::Answered)
        }
    }
}

/// Writes all replies that wait.
fn write_out<K: Sink>(sink: &mut K, replies: &mut Vec<u8>) -> Result<(), ServeError>
    ensures written { OnOk result (Appends (K.contents sink.old) (K.contents sink.new) replies.old.items) }
    ensures empty { OnOk result (replies.new.items ≡ []) }
    ensures prefix { WritesPrefix (K.contents sink.old) (K.contents sink.new) replies.old.items }
    ensures counts { WriteCounts result (K.faults sink.old) (K.faults sink.new) }
{
    match write_all(sink, replies) {
        Ok(()) => {
            replies.clear();
            Ok(())
        }
        Err(OuterError::Failed) => Err(ServeError::WriteFault),
        Err(OuterError::NoMemory) => Err(ServeError::NoMemory),
    }
}

/// Feeds the reader with more of the input.
fn read_on<S: Source>(
    alloc: Global,
    source: &mut S,
    piece: &mut Vec<u8>,
    reader: &mut FrameReader,
) -> Result<Input, ServeError>
    ensures fed { IfOk result (FeedsMore (S.left source.old) (S.left source.new) reader.old reader.new) }
    ensures counts { ReadCounts result (S.faults source.old) (S.faults source.new) }
{
    match feed_more(alloc, source, piece, reader) {
        Ok(input) => Ok(input),
        Err(OuterError::Failed) => Err(ServeError::ReadFault),
        Err(OuterError::NoMemory) => Err(ServeError::NoMemory),
    }
}
