//! An open call, as it is carried.

ghost use Rattle.std.specs.Prelude.{◌≡◌};
ghost use Rattle.client_worker.specs.After.{is_answered};

use range_turns::TicketNumber;
use volume_model::Bytes;

/// A read of so many bytes from the offset on.
#[derive(Clone, Copy)]
pub(crate) struct OpenRead {
    pub(crate) ticket: TicketNumber,
    pub(crate) offset: i64,
    pub(crate) count: u32,
}

/// A write of bytes from the offset on.
#[derive(Clone, Copy)]
pub(crate) struct OpenWrite<'a> {
    pub(crate) ticket: TicketNumber,
    pub(crate) offset: i64,
    pub(crate) bytes: &'a Bytes,
}

/// What asking a replica for its part of the open call came to.
#[derive(Clone, Copy)]
pub(crate) enum AfterPart {
    /// The call is answered.
    Answered,
    /// The call goes on, and that replica is next, if there is one.
    GoesOn(Option<u8>),
}

impl AfterPart {
    pub(crate) fn is_answered(self) -> bool
        ensures { result ≡ is_answered self }
    {
        match self {
            AfterPart::Answered => true,
            AfterPart::GoesOn(_) => false,
        }
    }
}

/// A replica's part of a write, whose blocks begin with the first.
#[derive(Clone, Copy)]
pub(crate) struct WritePart {
    pub(crate) ticket: TicketNumber,
    pub(crate) first: u32,
    pub(crate) replica: u8,
}
