ghost use Rattle.std.specs.Prelude.{◌≡◌, [], None, Some};
ghost use Rattle.open_calls.specs.Calls.{call_asked, whole_call};

use range_turns::Kind;
use std::alloc::Global;
use step_answers::{Buffer, Parts, WholeOp};
use volume_model::{Bytes, Call};

/// What is kept of a call from its enrolment to its end, beside its ticket: of a read, a write, or of what is done to the
/// whole volume.
#[derive(Debug, Drop)]
pub struct OpenCall {
    pub stream: u8,
    /// How long the journal was when the call was enrolled.
    pub saw: u64,
    /// The place of the call's first byte.
    pub at: u32,
    /// How many bytes the call has.
    pub length: u32,
    /// Of a write its bytes, and of a read none.
    pub bytes: Bytes,
    /// Of a started write, what stays before it in its first block.
    pub front: Bytes,
    /// Of a started write, what stays behind it in its last block.
    pub back: Bytes,
    /// Of a started read, its bytes once a replica gave them.
    pub buffer: Buffer,
    pub parts: Parts,
    /// What is done to the whole volume, by a ticket for it.
    pub op: Option<WholeOp>,
}

impl OpenCall {
    /// A read or a write that is enrolled now. It takes no memory.
    pub fn new(alloc: Global, stream: u8, saw: u64, at: u32, length: u32, bytes: Bytes) -> OpenCall
        ensures { result ≡ record {
          stream = stream;
          saw = saw;
          at = at;
          length = length;
          bytes = bytes;
          front = [];
          back = [];
          buffer = [];
          parts = [];
          op = None;
        } }
    {
        OpenCall {
            stream,
            saw,
            at,
            length,
            bytes,
            front: Bytes::new(),
            back: Bytes::new(),
            buffer: Buffer::none(alloc),
            parts: Parts::none(),
            op: None,
        }
    }

    /// What is to be done to the whole volume, enrolled now. It takes no memory.
    pub fn of_whole(alloc: Global, stream: u8, saw: u64, op: WholeOp) -> OpenCall
        ensures { result ≡ whole_call stream saw op }
    {
        OpenCall {
            op: Some(op),
            ..OpenCall::new(alloc, stream, saw, 0, 0, Bytes::new())
        }
    }

    /// What was asked, by a ticket of that kind. It takes no memory.
    pub fn into_call(self, kind: Kind) -> Call
        ensures { result ≡ call_asked kind self }
    {
        let OpenCall {
            at,
            length,
            bytes,
            op,
            ..
        } = self;
        let offset = i64::from(at);
        match kind {
            Kind::Read => Call::Read { offset, length },
            Kind::Write => Call::Write { offset, bytes },
            Kind::Whole => match op {
                Some(op) => Call::Command(op.command()),
                None => Call::Ping,
            },
        }
    }
}
