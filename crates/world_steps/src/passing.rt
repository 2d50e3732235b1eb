//! What the worker of a stream tells its gate, outside of the turn.
use outer_traits::{Gate, Point};
use std::alloc::AllocError;
use stream_steps::AdmitBarrier;
use volume_core::{Admit, Enrolled, World};
use volume_maint::{AdmitWhole, MayStart};

/// The stream's next call was answered: the gate is told its index, and it is counted.
pub(crate) fn pass_ended<G: Gate>(gate: &G, stream: u8, ended: &mut u64) {
    gate.pass(stream, Point::Ended(*ended));
    *ended = ended.wrapping_add(1);
}

/// The same where the step answers a call, unless it failed.
pub(crate) fn pass_answered<G: Gate, A, E>(
    gate: &G,
    stream: u8,
    ended: &mut u64,
    answer: &Result<A, E>,
) {
    pass_if(gate, stream, ended, answer.is_ok());
}

/// A call that a replica has acknowledged may have been answered.
pub(crate) fn pass_acked<G: Gate, E>(
    gate: &G,
    stream: u8,
    ended: &mut u64,
    answer: &Result<bool, E>,
) {
    pass_if(gate, stream, ended, matches!(answer, Ok(true)));
}

/// A call that was enrolled may have been answered at once, since its range is not good.
pub(crate) fn pass_enrolled<G: Gate, E>(
    gate: &G,
    stream: u8,
    ended: &mut u64,
    answer: &Result<Enrolled, E>,
) {
    if let Ok(Enrolled::OutOfRange(_)) = answer {
        pass_ended(gate, stream, ended);
    }
}

/// A call that asks to start may have been told to wait, or answered, since no replica is read.
pub(crate) fn pass_admitted<G: Gate, E>(
    gate: &G,
    stream: u8,
    ended: &mut u64,
    answer: &Result<Admit, E>,
) {
    match answer {
        Ok(Admit::After(_)) => gate.pass(stream, Point::Waiting),
        Ok(Admit::NoReplica(_)) => pass_ended(gate, stream, ended),
        Ok(Admit::Go(_)) | Err(_) => {}
    }
}

/// A command that was told to wait for the turn is about to ask again.
pub(crate) fn pass_turn<G: Gate>(gate: &G, stream: u8, told: &MayStart) {
    if let MayStart::After(_) = told {
        gate.pass(stream, Point::Waiting);
    }
}

/// An operation on the whole volume that was told to wait is about to ask again.
pub(crate) fn pass_whole<G: Gate>(gate: &G, stream: u8, told: &Result<AdmitWhole, AllocError>) {
    if let Ok(AdmitWhole::After(_)) = told {
        gate.pass(stream, Point::Waiting);
    }
}

/// A barrier that was told to wait is about to ask again.
pub(crate) fn pass_barrier<G: Gate>(gate: &G, stream: u8, told: &Result<AdmitBarrier, AllocError>) {
    if let Ok(AdmitBarrier::After(_)) = told {
        gate.pass(stream, Point::Waiting);
    }
}

/// The stream's next call was answered, if so many of its calls are answered now and fewer were before.
pub(crate) fn pass_if_ended<G: Gate>(gate: &G, stream: u8, ended: &mut u64, now: u64) {
    let answered = *ended < now;
    pass_if(gate, stream, ended, answered);
}

/// How many calls of the stream were answered.
pub(crate) fn ended_in(world: &World, stream: u8) -> u64 {
    match world.indices.get(stream as usize) {
        Some(count) => *count,
        None => 0,
    }
}

/// The stream's next call was answered, if it was.
pub(crate) fn pass_if<G: Gate>(gate: &G, stream: u8, ended: &mut u64, answered: bool) {
    if answered {
        pass_ended(gate, stream, ended);
    }
}
