//! Runs of the top call.
ghost use Rattle.std.specs.Prelude.{◌≡◌, ◌<◌, ◌-◌, ◌^◌, IfOk};

use crate::status::Status;
use crate::top::longhorn;
use door_memory::NoFaultDoors;
use door_traits::Doors;
use fault_lines::PlanWiring;
use outer_memory::{NoFaultSink, NoFaultSource};
use outer_traits::{Gate, Sink, Source};
use shelf_memory::NoFaultShelves;
use shelf_traits::Shelves;
use std::alloc::{AllocError, Global};
use std::sync::Wait;
use std::thread::Threads;
use target_memory::NoFaultTarget;
use target_traits::Target;

fn owned(alloc: Global, all: &[&str]) -> Result<Vec<String>, AllocError> {
    let mut words = Vec::new(alloc);
    for word in all {
        words.push(String::from_str(alloc, word)?)?;
    }
    Ok(words)
}

/// How the words end over all that a run is given, but for its lines, which the script plans.
pub(crate) fn ends_over<S: Source, K: Sink, H: Shelves, T: Target + Send, G: Gate + Sync, D: Doors>(
    rt: &(impl AllocGlobal + Threads + Wait + Sync),
    words: &[&str],
    source: &mut S,
    sink: &mut K,
    shelves: &mut H,
    target: &mut T,
    gate: &G,
    doors: &mut D,
) -> Result<Status, AllocError>
    requires source_count { S.faults source.old < 2 ^ 64 - 1 }
    requires sink_count { K.faults sink.old < 2 ^ 64 - 1 }
    requires shelf_count { H.faults shelves.old < 2 ^ 64 - 1 }
    requires target_count { T.faults target.old < 2 ^ 64 - 1 }
    requires door_count { D.faults doors.old < 2 ^ 64 - 1 }
    ensures done { IfOk result (λ status. status ≡ Status.Done → T.faults target.new ≡ T.faults target.old) }
{
    let alloc = rt.alloc();
    let words = owned(alloc, words)?;
    let mut wiring = PlanWiring::new(alloc);
    Ok(longhorn(
        rt,
        alloc,
        &words,
        source,
        sink,
        &mut wiring,
        shelves,
        target,
        gate,
        doors,
    ))
}

/// How the words end over a source, a sink and shelves, with this gate.
pub(crate) fn ends<S: Source, K: Sink, H: Shelves, G: Gate + Sync>(
    rt: &(impl AllocGlobal + Threads + Wait + Sync),
    words: &[&str],
    source: &mut S,
    sink: &mut K,
    shelves: &mut H,
    gate: &G,
) -> Result<Status, AllocError>
    requires source_count { S.faults source.old < 2 ^ 64 - 1 }
    requires sink_count { K.faults sink.old < 2 ^ 64 - 1 }
    requires shelf_count { H.faults shelves.old < 2 ^ 64 - 1 }
{
    let target = &mut NoFaultTarget::new(rt.alloc());
    let doors = &mut NoFaultDoors { alloc: rt.alloc() };
    ends_over(rt, words, source, sink, shelves, target, gate, doors)
}

/// How they end over an input and shelves, and the sink then. The source and the sink do not fail, and each of their
/// calls has 70,000 bytes at most.
pub(crate) fn end_on<H: Shelves, G: Gate + Sync>(
    rt: &(impl AllocGlobal + Threads + Wait + Sync),
    words: &[&str],
    input: Vec<u8>,
    shelves: &mut H,
    gate: &G,
) -> Result<(Status, NoFaultSink), AllocError>
    requires { H.faults shelves.old < 2 ^ 64 - 1 }
{
    let mut source = NoFaultSource::new(input, 70_000);
    let mut sink = NoFaultSink::new(rt.alloc(), 70_000);
    let status = ends(rt, words, &mut source, &mut sink, shelves, gate)?;
    Ok((status, sink))
}

/// The same over shelves that hold nothing.
pub(crate) fn end_of<G: Gate + Sync>(
    rt: &(impl AllocGlobal + Threads + Wait + Sync),
    words: &[&str],
    input: Vec<u8>,
    gate: &G,
) -> Result<(Status, NoFaultSink), AllocError> {
    let mut shelves = NoFaultShelves::new(rt.alloc());
    end_on(rt, words, input, &mut shelves, gate)
}
