//! A load that generates itself.

ghost use Rattle.std.specs.Prelude.{◌≡◌, ◌<◌, length, true, OnOk};
ghost use Rattle.std.specs.Io.KnownBytes.{Appends};
ghost use Rattle.journal_book.specs.Book.{modes_of};
ghost use Rattle.outer_traits.specs.Causes.{HasOuterCause};
ghost use Rattle.outer_traits.specs.Passing.{WritesPrefix};
ghost use Rattle.report_laws.specs.Fits.{AllFit};
ghost use Rattle.script_text.specs.Generated.{CanGenerate, generated};
ghost use Rattle.stream_turns.specs.Store.{StoreOfRun};
ghost use Rattle.volume_cli.specs.Loads.{IsLoadRun, LeavesLoad, load_status, served_summary};

use crate::status::Status;
use outer_traits::{Gate, Outer, OuterError, Sink, Wiring};
use report_laws::know_journal;
use report_writer::write_summary;
use script_text::make_script;
use std::alloc::Global;
use std::sync::Wait;
use std::thread::Threads;
use stream_turns::{ServedStreams, blank_world};
use target_traits::Target;

/// Serves the script that these numbers generate, by a worker for each stream, and writes the summary of its run.
pub(crate) fn run_load<
    R: Threads + Wait + Sync,
    K: Sink,
    W: Wiring,
    T: Target + Send,
    G: Gate + Sync,
>(
    rt: &R,
    alloc: Global,
    number: u64,
    streams: u8,
    calls: u32,
    sink: &mut K,
    wiring: &mut W,
    target: &mut T,
    gate: &G,
) -> Outer<()>
    requires can { CanGenerate streams calls }
    ensures left { LeavesLoad (IsLoadRun (W.asked wiring.old) (W.asked wiring.new)
        (W.counts wiring.new) (W.carried wiring.new)
        (λ volume spot journal. T.tells ≡ true → StoreOfRun (T.holds target.old) (T.faults target.old)
        (T.holds target.new) (T.faults target.new) volume spot journal) (generated number streams calls))
        (generated number streams calls) (sink.new ≡ sink.old) (K.contents sink.old) (K.contents sink.new) result }
    ensures cause { HasOuterCause (K.faults sink.old) (K.faults sink.new) result }
    ensures unasked { target.new ≡ target.old }
{
    let script = make_script(alloc, number, streams, calls)?;
    let world = blank_world(alloc, &script)?;
    let served = stream_workers::serve(rt, alloc, script, world, wiring, target, gate)?;
    sum_up(rt, alloc, &served, sink)
}

/// Writes the summary of streams that were served, the last of which is the control stream.
fn sum_up<R: Threads + Sync, K: Sink>(
    rt: &R,
    alloc: Global,
    served: &ServedStreams,
    sink: &mut K,
) -> Outer<()>
    requires each { length served.now.world.nodes.items ≡ length (modes_of served.now.world.journal) }
    requires some_streams { 0 < length served.now.heads.items }
    requires few_streams { length served.now.heads.items < 256 }
    ensures fits { AllFit served.now.world.journal.entries }
    ensures whole { OnOk result (Appends (K.contents sink.old) (K.contents sink.new) (served_summary served.now)) }
    ensures prefix { WritesPrefix (K.contents sink.old) (K.contents sink.new) (served_summary served.now) }
    ensures cause { HasOuterCause (K.faults sink.old) (K.faults sink.new) result }
{
    let world = &served.world;
    know_journal(&world.journal);
    let frames = served.heads.len() - 1;
    write_summary(
        rt,
        alloc,
        &served.heads[..frames],
        &world.journal,
        &world.nodes,
        sink,
    )
}

/// The status of a load that ended so.
pub(crate) fn how_loaded(loaded: Outer<()>) -> Status
    ensures { result ≡ load_status loaded }
{
    match loaded {
        Ok(()) => Status::Done,
        Err(OuterError::Failed) => Status::WriteFault,
        Err(OuterError::NoMemory) => Status::NoMemory,
    }
}
