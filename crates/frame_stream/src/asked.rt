ghost use Rattle.std.specs.Prelude.{◌≡◌};
ghost use Rattle.frame_stream.specs.Asked.{asked_of, call_of};

use crate::frame::{CLOSE, Frame, PING, READ, WRITE};
use volume_model::Call;

/// What a frame asks.
#[derive(Debug, Drop)]
pub enum Asked {
    /// A call.
    Call(Call),
    /// The end of its stream.
    End,
}

/// What a frame asks.
pub fn of_frame(frame: Frame) -> Asked
    ensures { result ≡ asked_of frame }
{
    match frame.head.kind {
        CLOSE => Asked::End,
        _ => Asked::Call(call_of(frame)),
    }
}

/// The call that a frame is, of a frame that is no Close. The data of a read and the size of a write say nothing.
#[inline]
pub fn call_of(frame: Frame) -> Call
    ensures { result ≡ call_of frame }
{
    let Frame { head, body } = frame;
    match head.kind {
        READ => Call::Read {
            offset: head.offset,
            length: head.size,
        },
        WRITE => Call::Write {
            offset: head.offset,
            bytes: body,
        },
        PING => Call::Ping,
        kind => Call::Other(kind),
    }
}
