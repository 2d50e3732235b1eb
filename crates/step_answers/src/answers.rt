use crate::parts::Parts;
use range_turns::{BlockRange, TicketNumber};
use volume_model::{Bytes, FoldOrDrop, Mode, Refusal};

/// What stood against a step: it changed nothing.
#[derive(Clone, Copy, Debug, PartialEq, Eq)]
pub enum NotThis {
    /// The ticket is not in the state that the step needs.
    Ticket,
    /// The replica has that mode. Of the reply to a command: the modes stand against it, and one is `RW`, or else `ERR`.
    Mode(Mode),
    /// A page, a layer or a name is not in the state that the step or the reply needs.
    Page,
    /// That replica has still to acknowledge.
    Pending(u8),
    /// The line's last count, which is not below the given one.
    Count(u64),
}

// ---- a read or a write

/// What an enrolment comes to.
#[derive(Clone, Copy, Debug)]
pub enum Enrolled {
    Ticket(TicketNumber),
    /// The range is not good: the answer stands at that place.
    OutOfRange(u64),
}

/// What is carried of a call that has started.
#[derive(Debug, Drop)]
pub struct Job {
    /// The blocks in which the call's bytes lie.
    pub range: BlockRange,
    /// Which replicas are asked: those that owe their part.
    pub parts: Parts,
    /// Of a write, what stays before it in its first block.
    pub front: Bytes,
    /// Of a write, what stays behind it in its last block.
    pub back: Bytes,
}

/// What asking to start comes to.
#[derive(Debug, Drop)]
pub enum Admit {
    /// The call has started.
    Go(Job),
    /// It has to wait for that ticket.
    After(TicketNumber),
    /// No replica is read and written: the answer stands at that place.
    NoReplica(u64),
}

// ---- the whole volume

/// What asking to start on the whole volume comes to.
#[derive(Clone, Copy, Debug, PartialEq, Eq)]
pub enum AdmitWhole {
    /// The operation has started.
    Go,
    /// It has to wait for that ticket.
    After(TicketNumber),
    /// It may not begin: the add's rebuild was begun already, or there is no such replica.
    Never,
    /// Its command is refused: the answer stands at that place.
    Refused(Refusal, u64),
}

/// What a purge does next.
#[derive(Clone, Copy, Debug, PartialEq, Eq)]
pub enum NextPart {
    /// That layer goes.
    Part(FoldOrDrop),
    /// None can go.
    Nothing,
    /// No replica is read that could tell.
    NoReplica,
    /// A call on the whole volume has started, by that ticket, and has to end first.
    After(TicketNumber),
}
