//! How a run ends: what it leaves is printed, and then saved.

ghost use Rattle.std.specs.Prelude.{◌≡◌, ◌≢◌, ◌+◌, ◌<◌, ◌++◌, length, map, OnOk, IfSome, IfNone};
ghost use Rattle.std.specs.Io.KnownBytes.{Appends};
ghost use Rattle.journal_book.specs.Book.{modes_of};
ghost use Rattle.outer_traits.specs.Causes.{HasOuterCause, Rose};
ghost use Rattle.outer_traits.specs.Passing.{WritesPrefix};
ghost use Rattle.folder_checks.specs.Told.{Told};
ghost use Rattle.shelf_traits.specs.Files.{Both};
ghost use Rattle.report_laws.specs.Fits.{AllFit};
ghost use Rattle.run_report.specs.Report.{opening_lines};
ghost use Rattle.volume_folders.specs.Saved.{OnlyFoldersChange};
ghost use Rattle.volume_cli.specs.declared.status.Status.TheVariants.{NoMemory};
ghost use Rattle.volume_cli.specs.Ends.{ended};
ghost use Rattle.volume_cli.specs.Left.{opening_texts};
ghost use Rattle.volume_cli.specs.Steps.{text_of, AreSavedOf, HasPrinted, FinishCounts, end_status};

use crate::status::Status;
use outer_traits::{Outer, OuterError, Sink};
use report_laws::know_journal;
use report_writer::write_report;
use run_report::print_opening;
use shelf_traits::Shelves;
use std::alloc::{AllocError, Global};
use std::thread::Threads;
use stream_turns::ServedStreams;
use vol_units::TimeText;
use volume_folders::{OpenedHead, Reason, save_replicas};

/// A run whose streams are served.
#[derive(Drop)]
pub struct ServedRun {
    pub served: ServedStreams,
    /// Why each replica was not read and written at first.
    pub reasons: Vec<Option<Reason>>,
    /// What is told of the head of each replica that was read.
    pub heads: Vec<Option<OpenedHead>>,
    /// The time of a run that saves.
    pub saving: Option<TimeText>,
}

/// Prints the report of a run, and saves its replicas, also where the sink fails, and behind a fault of the target.
pub(crate) fn finish<R: Threads + Sync, K: Sink, H: Shelves>(
    rt: &R,
    alloc: Global,
    run: &ServedRun,
    sink: &mut K,
    shelves: &mut H,
) -> Result<(), Status>
    requires few { length (modes_of run.now.served.world.journal) < 256 }
    requires each { length run.now.served.world.nodes.items ≡ length (modes_of run.now.served.world.journal) }
    requires reasons { length run.now.reasons.items < 256 }
    ensures fits { AllFit run.now.served.world.journal.entries }
    ensures whole { HasPrinted (ended result) (K.faults sink.old) (K.faults sink.new)
        (Appends (K.contents sink.old) (K.contents sink.new) (text_of run.now)) }
    ensures prefix { WritesPrefix (K.contents sink.old) (K.contents sink.new) (text_of run.now) }
    ensures saved { IfSome run.now.saving (λ time. (Rose (H.faults shelves.old) (H.faults shelves.new) → ⊥)
        → ended result ≢ NoMemory → Told (H.holds shelves.new) (λ files. AreSavedOf files time run.now)) }
    ensures kept { IfNone run.now.saving (H.holds shelves.new ≡ H.holds shelves.old) }
    ensures only { Both (H.holds shelves.old) (H.holds shelves.new)
        (OnlyFoldersChange (length run.now.served.world.nodes.items)) }
    ensures counts { FinishCounts (ended result) run.now.served.target_fault
        (K.faults sink.old) (K.faults sink.new) (H.faults shelves.old) (H.faults shelves.new) }
{
    let written = write_output(rt, alloc, run, sink);
    if let Err(OuterError::NoMemory) = written {
        return Err(Status::NoMemory);
    }
    let saved = save_output(alloc, run, shelves);
    end_of(run.served.target_fault, &written, &saved)
}

/// How a run ends whose target failed, or not, and that was printed so, and then saved so: the first fault is told,
/// unless memory ran out.
fn end_of(target_fault: bool, written: &Outer<()>, saved: &Outer<()>) -> Result<(), Status>
    ensures { ended result ≡ end_status target_fault written.now saved.now }
{
    match (written, saved) {
        (Err(OuterError::NoMemory), _) | (_, Err(OuterError::NoMemory)) => Err(Status::NoMemory),
        _ if target_fault => Err(Status::TargetFault),
        (Err(OuterError::Failed), _) => Err(Status::WriteFault),
        (Ok(()), Err(OuterError::Failed)) => Err(Status::ShelfFault),
        (Ok(()), Ok(())) => Ok(()),
    }
}

/// Writes the report. Where that fails, the sink has taken a prefix of it.
fn write_output<R: Threads + Sync, K: Sink>(
    rt: &R,
    alloc: Global,
    run: &ServedRun,
    sink: &mut K,
) -> Outer<()>
    requires few { length (modes_of run.now.served.world.journal) < 256 }
    requires each { length run.now.served.world.nodes.items ≡ length (modes_of run.now.served.world.journal) }
    requires reasons { length run.now.reasons.items < 256 }
    ensures whole { OnOk result (Appends (K.contents sink.old) (K.contents sink.new) (text_of run.now)) }
    ensures prefix { WritesPrefix (K.contents sink.old) (K.contents sink.new) (text_of run.now) }
    ensures cause { HasOuterCause (K.faults sink.old) (K.faults sink.new) result }
    ensures fits { AllFit run.now.served.world.journal.entries }
{
    let written = write_lines(rt, alloc, run, sink);
    if written.is_err() {
        // Who wrote the entries knew them; here they may not all have been written.
        know_journal(&run.served.world.journal);
    }
    written
}

/// The same. Once all is written, it is known what the entries hold.
fn write_lines<R: Threads + Sync, K: Sink>(
    rt: &R,
    alloc: Global,
    run: &ServedRun,
    sink: &mut K,
) -> Outer<()>
    requires few { length (modes_of run.now.served.world.journal) < 256 }
    requires each { length run.now.served.world.nodes.items ≡ length (modes_of run.now.served.world.journal) }
    requires reasons { length run.now.reasons.items < 256 }
    ensures whole { OnOk result (Appends (K.contents sink.old) (K.contents sink.new) (text_of run.now)) }
    ensures prefix { WritesPrefix (K.contents sink.old) (K.contents sink.new) (text_of run.now) }
    ensures cause { HasOuterCause (K.faults sink.old) (K.faults sink.new) result }
    ensures fits { OnOk result (AllFit run.now.served.world.journal.entries) }
{
    let world = &run.served.world;
    let mut opened = Vec::new(alloc);
    print_openings(0, &run.reasons, &mut opened)?;
    write_report(
        rt,
        alloc,
        opened,
        &run.served.heads,
        &world.journal,
        &world.nodes,
        sink,
    )
}

/// Appends the opening lines of these replicas, the first of which is `r`.
fn print_openings(r: u8, reasons: &[Option<Reason>], into: &mut Vec<u8>) -> Result<(), AllocError>
    requires { r + length reasons.now < 256 }
    ensures { OnOk result (into.new.items
        ≡ into.old.items ++ opening_lines r (opening_texts reasons.now)) }
{
    let [reason, rest @ ..] = reasons else {
        return Ok(());
    };
    match reason {
        None => print_opening(r, None, into)?,
        Some(why) => print_opening(r, Some(&why.told()), into)?,
    }
    print_openings(r + 1, rest, into)
}

/// Saves the replicas of a run that saves, each in its folder.
fn save_output<H: Shelves>(alloc: Global, run: &ServedRun, shelves: &mut H) -> Outer<()>
    requires few { length (modes_of run.now.served.world.journal) < 256 }
    requires each { length run.now.served.world.nodes.items ≡ length (modes_of run.now.served.world.journal) }
    ensures saved { OnOk result (IfSome run.now.saving
        (λ time. Told (H.holds shelves.new) (λ files. AreSavedOf files time run.now))) }
    ensures kept { IfNone run.now.saving (H.holds shelves.new ≡ H.holds shelves.old) }
    ensures only { Both (H.holds shelves.old) (H.holds shelves.new)
        (OnlyFoldersChange (length run.now.served.world.nodes.items)) }
    ensures cause { HasOuterCause (H.faults shelves.old) (H.faults shelves.new) result }
{
    let world = &run.served.world;
    match &run.saving {
        None => Ok(()),
        Some(time) => save_replicas(
            alloc,
            &world.nodes,
            &run.heads,
            world.journal.modes(),
            time,
            shelves,
        ),
    }
}
