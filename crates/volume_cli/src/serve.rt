//! Sessions that come through doors, and are served side by side.

ghost use Rattle.std.specs.Prelude.{◌≡◌, ◌≤◌, length, true, OnOk};
ghost use Rattle.std.specs.Io.KnownBytes.{Appends};
ghost use Rattle.journal_book.specs.Book.{modes_of};
ghost use Rattle.outer_traits.specs.Causes.{HasOuterCause};
ghost use Rattle.outer_traits.specs.Passing.{WritesPrefix};
ghost use Rattle.report_laws.specs.Fits.{AllFit};
ghost use Rattle.volume_cli.specs.Hosted.{HavePassed, HostCounts, LeavesHosted, host_status, served_text};
ghost use Rattle.volume_cli.specs.declared.serve.HostError.TheVariants.{NoMemory};

use crate::status::Status;
use door_traits::{Doors, accept_all, take_back_all};
use outer_traits::{Outer, OuterError, Sink};
use report_laws::know_journal;
use report_writer::write_sessions;
use session_workers::{ServedSessions, serve_sessions};
use std::alloc::{AllocError, Global};
use std::mem::forget;
use std::sync::Wait;
use std::thread::Threads;
use vol_units::VolumeSize;

/// Why sessions are not served, or not reported whole.
#[derive(Clone, Copy, Debug, PartialEq, Eq)]
pub enum HostError {
    /// The doors failed, before anyone was served.
    DoorFault,
    /// The sink failed.
    WriteFault,
    /// Memory ran out.
    NoMemory,
}

impl From<AllocError> for HostError {
    ghost from_gives = { λ _ e. e ≡ NoMemory };

    fn from(_e: AllocError) -> HostError {
        HostError::NoMemory
    }
}

/// Lets so many sessions in at an address, serves them side by side on a blank volume, lets them out, and writes the report
/// of their journal. Nobody is served before all are in. A session's own faults are told in its line alone.
pub(crate) fn serve_doors<R: Threads + Wait + Sync, K: Sink, D: Doors>(
    rt: &R,
    alloc: Global,
    address: &str,
    size: VolumeSize,
    replicas: u8,
    sessions: u8,
    sink: &mut K,
    doors: &mut D,
) -> Result<(), HostError>
    requires replicas { (1 ≤ replicas) × (replicas ≤ 8) }
    requires sessions { (1 ≤ sessions) × (sessions ≤ 16) }
    ensures left { LeavesHosted size replicas sessions (λ before now. D.tells ≡ true
        → HavePassed (D.coming doors.old) (D.coming doors.new) (D.back doors.old) (D.back doors.new) before now)
        (sink.new ≡ sink.old) (K.contents sink.old) (K.contents sink.new) result }
    ensures counts { HostCounts result (K.faults sink.old) (K.faults sink.new)
        (D.faults doors.old) (D.faults doors.new) }
{
    let clients = match accept_all(alloc, doors, address, usize::from(sessions)) {
        Ok(clients) => clients,
        Err(OuterError::Failed) => return Err(HostError::DoorFault),
        Err(OuterError::NoMemory) => return Err(HostError::NoMemory),
    };
    let (clients, served) = serve_sessions(rt, alloc, size, replicas, clients);
    take_back_all(doors, clients);
    let served = served?;
    let printed = print_sessions(rt, alloc, &served, sink);
    forget(served);
    match printed {
        Ok(()) => Ok(()),
        Err(OuterError::Failed) => Err(HostError::WriteFault),
        Err(OuterError::NoMemory) => Err(HostError::NoMemory),
    }
}

/// Writes the report of sessions that were served.
fn print_sessions<R: Threads + Sync, K: Sink>(
    rt: &R,
    alloc: Global,
    served: &ServedSessions,
    sink: &mut K,
) -> Outer<()>
    requires few { length (modes_of served.now.world.journal) ≤ 8 }
    requires each { length served.now.world.nodes.items ≡ length (modes_of served.now.world.journal) }
    requires sessions { length served.now.ended.items ≤ 16 }
    ensures whole { OnOk result (Appends (K.contents sink.old) (K.contents sink.new) (served_text served.now)) }
    ensures prefix { WritesPrefix (K.contents sink.old) (K.contents sink.new) (served_text served.now) }
    ensures cause { HasOuterCause (K.faults sink.old) (K.faults sink.new) result }
    ensures fits { AllFit served.now.world.journal.entries }
{
    let world = &served.world;
    let written = write_sessions(rt, alloc, &served.ended, &world.journal, &world.nodes, sink);
    if written.is_err() {
        // Who wrote the entries knew them; here they may not all have been written.
        know_journal(&world.journal);
    }
    written
}

/// The status of a serving that ended so.
pub(crate) fn how_hosted(hosted: Result<(), HostError>) -> Status
    ensures { result ≡ host_status hosted }
{
    match hosted {
        Ok(()) => Status::Done,
        Err(HostError::DoorFault) => Status::DoorFault,
        Err(HostError::WriteFault) => Status::WriteFault,
        Err(HostError::NoMemory) => Status::NoMemory,
    }
}
