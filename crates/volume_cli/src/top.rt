ghost use Rattle.std.specs.Prelude.{◌≡◌, ◌<◌, ◌≤◌, ◌-◌, ◌^◌, ◌↔◌, true, false, ℕ, List, All, Some, None, IfOk, IfSome, OnOk};
ghost use Rattle.std.specs.Io.KnownBytes.{Appends, IsAtEnd};
ghost use Rattle.outer_traits.specs.Causes.{Rose};
ghost use Rattle.outer_traits.specs.Lines.{TellsMore};
ghost use Rattle.outer_traits.specs.Passing.{GivesAtMost};
ghost use Rattle.control_worker.specs.Store.{TellsFault};
ghost use Rattle.script_text.specs.Generated.{generated};
ghost use Rattle.script_text.specs.Good.{IsGood, backs_up};
ghost use Rattle.script_text.specs.Script.{IsScript, IsNoScript};
ghost use Rattle.script_text.specs.declared.script.Script.{Script};
ghost use Rattle.script_text.specs.declared.what.What.{What};
ghost use Rattle.program_words.specs.declared.words.Workers.{Workers};
ghost use Rattle.program_words.specs.declared.words.Words.{Words};
ghost use Rattle.program_words.specs.declared.words.Words.TheVariants.{Run, Replica, Generate, Serve};
ghost use Rattle.volume_model.specs.Disk.{zeros};
ghost use Rattle.volume_model.specs.History.{Spot};
ghost use Rattle.stream_turns.specs.Run.{HaveNotFailed};
ghost use Rattle.stream_turns.specs.Serving.{IsBegun, IsServed, IsServedInTurn};
ghost use Rattle.stream_turns.specs.Store.{StoreOfRun};
ghost use Rattle.stream_turns.specs.Volume.{asks_in};
ghost use Rattle.summary_laws.specs.LoadText.{load_text};
ghost use Rattle.volume_cli.specs.Begun.{CanBegin, CannotBegin};
ghost use Rattle.volume_cli.specs.Left.{IsRunOf, script_purpose, purpose_of};
ghost use Rattle.volume_cli.specs.Ends.{ended, Counts, Found, Leaves};
ghost use Rattle.volume_cli.specs.Headline.{asked_for, AskRun, AskLoad, AskReplica, AskServe, AskStore, IsUsageError, IsStatus};
ghost use Rattle.volume_cli.specs.Headline.{ExactlyWhere, TellsNoCleanShelf, RefusedOnly};
ghost use Rattle.volume_cli.specs.Hosted.{HavePassed, Hosts};
ghost use Rattle.volume_cli.specs.Served.{EndsAsInput, Serves};
ghost use Rattle.volume_cli.specs.Stores.{IsOfStore, HasAnswer, RefusesObject, LeavesAnswer};
ghost use Rattle.backup_restore.specs.declared.error.Refusal.{Refusal};

use crate::begin::{Begun, begin};
use crate::edge::read_input;
use crate::finish::{ServedRun, finish};
use crate::load::{how_loaded, run_load};
use crate::replica::{how_served, serve_blank};
use crate::serve::{how_hosted, serve_doors};
use crate::status::Status;
use crate::stores::{print_backups, restore_backup};
use door_traits::Doors;
use outer_traits::{Gate, Sink, Source, Wiring};
use program_words::{Words, WordsError, Workers, read_words};
use script_text::{Script, read_script};
use shelf_traits::Shelves;
use std::alloc::{AllocError, Global};
use std::mem::forget;
use std::sync::Wait;
use std::thread::Threads;
use stream_turns::{ServedStreams, World};
use target_traits::Target;
use vol_units::TimeText;

/// Does what the words of the command line ask: `run` reads a script from the source and serves its streams on a
/// replicated volume, over lines that the wiring makes, and writes the opening, the journal, the replies and the
/// replicas' last lines to the sink. The replicas are those of the shelves, where the script opens them, and else
/// zeros; where it saves them, they are on the shelves at the end. Backups that it makes go to the target. The
/// streams are served side by side, a worker for each, which passes the gate on its way; or one after another, by one
/// worker, which passes none. `gen` does the same with a script that it generates from three numbers, on zeros, and
/// writes a summary. `replica` serves one blank replica to the client whose frames the source gives, and writes the
/// replies to the sink. `restore` writes the disk of a backup to the sink, and `backups` a line for each backup of a
/// volume, by what the target holds; neither changes it. `serve` lets sessions in by the doors, serves them side by side
/// on a blank volume, a worker for each, lets them out, and writes the journal, how each ended, and the replicas' last
/// lines to the sink.
pub fn longhorn<
    R: Threads + Wait + Sync,
    S: Source,
    K: Sink,
    W: Wiring,
    H: Shelves,
    T: Target + Send,
    G: Gate + Sync,
    D: Doors,
>(
    rt: &R,
    alloc: Global,
    words: &[String],
    source: &mut S,
    sink: &mut K,
    wiring: &mut W,
    shelves: &mut H,
    target: &mut T,
    gate: &G,
    doors: &mut D,
) -> Status
    requires source_count { S.faults source.old < 2 ^ 64 - 1 }
    requires sink_count { K.faults sink.old < 2 ^ 64 - 1 }
    requires shelf_count { H.faults shelves.old < 2 ^ 64 - 1 }
    requires target_count { T.faults target.old < 2 ^ 64 - 1 }
    requires door_count { D.faults doors.old < 2 ^ 64 - 1 }

    // When each status comes. Out of memory alone is free: but a fault of the source is told in any case, one of the
    // target unless memory runs out behind it, one of the sink unless the target failed before or memory runs out
    // behind it, and one of the shelves unless one of these came before. Of what is in a store a fault of the target
    // is told in any case, and so is one of the doors. What fails in a session that was let in changes no status.
    ensures usage { ExactlyWhere result Status.Usage (IsUsageError words.now) }
    ensures read_fault { result ≡ Status.ReadFault ↔ S.faults source.old < S.faults source.new }
    ensures write_fault { ExactlyWhere result Status.WriteFault
        ((K.faults sink.old < K.faults sink.new) × (T.faults target.new ≡ T.faults target.old)) }
    ensures shelf_fault { result ≡ Status.ShelfFault
        ↔ (H.faults shelves.old < H.faults shelves.new) × (K.faults sink.new ≡ K.faults sink.old)
        × (T.faults target.new ≡ T.faults target.old) }
    ensures target_fault { ExactlyWhere result Status.TargetFault (T.faults target.old < T.faults target.new) }
    ensures door_fault { result ≡ Status.DoorFault ↔ D.faults doors.old < D.faults doors.new }
    ensures store_fault { AskStore words.now → T.faults target.old < T.faults target.new → result ≡ Status.TargetFault }
    ensures refused_only { RefusedOnly words.now (S.left source.old) (H.holds shelves.old)
        T.tells (T.holds target.old) result }
    ensures script { AskRun words.now → S.faults source.new ≡ S.faults source.old
        → IfSome (S.left source.old) (λ input. (place : ℕ) (what : What)
        → IsNoScript input place what → IsStatus result (Status.Script place what)) }
    ensures no_clean { AskRun words.now → S.faults source.new ≡ S.faults source.old
        → H.faults shelves.new ≡ H.faults shelves.old
        → IfSome (S.left source.old) (λ input. (script : Script)
        → IsScript input script → CannotBegin (H.holds shelves.old) script → TellsNoCleanShelf result) }
    ensures refused { T.tells ≡ true → K.faults sink.new ≡ K.faults sink.old → T.faults target.new ≡ T.faults target.old
        → (asked : Words) → asked_for words.now ≡ Some asked
        → (kind : Refusal) (name : List ℕ) → RefusesObject (T.holds target.old) asked kind name
        → IsStatus result (Status.Refused kind name) }
    ensures done { result ≡ Status.Done → (S.faults source.new ≡ S.faults source.old)
        × (K.faults sink.new ≡ K.faults sink.old) × (H.faults shelves.new ≡ H.faults shelves.old)
        × (T.faults target.new ≡ T.faults target.old) × (D.faults doors.new ≡ D.faults doors.old)
        × (AskRun words.now → IsAtEnd (S.left source.new)) }

    // Where a run is asked for, the input is a script, some folder is clean where folders are opened, and neither
    // source nor sink nor shelves nor target fail, the run is done, whichever lines fail.
    ensures complete { AskRun words.now → S.faults source.new ≡ S.faults source.old
        → K.faults sink.new ≡ K.faults sink.old → H.faults shelves.new ≡ H.faults shelves.old
        → T.faults target.new ≡ T.faults target.old
        → IfSome (S.left source.old) (λ input. (script : Script)
        → IsScript input script → CanBegin (H.holds shelves.old) script → IsStatus result Status.Done) }

    // A load that is asked for is done where the sink does not fail, and a replica serves its input to the end, to a Close
    // or to the place where it is cut off, where neither source nor sink fails.
    ensures loads { AskLoad words.now → K.faults sink.new ≡ K.faults sink.old → IsStatus result Status.Done }
    ensures serves { AskReplica words.now → S.faults source.new ≡ S.faults source.old
        → K.faults sink.new ≡ K.faults sink.old → IfSome (S.left source.old) (EndsAsInput (IsStatus result)) }

    // Sessions are served, and told of, where neither doors nor sink fail.
    ensures sessions { AskServe words.now → D.faults doors.new ≡ D.faults doors.old
        → K.faults sink.new ≡ K.faults sink.old → IsStatus result Status.Done }

    // Where the objects that are asked for are as they have to be, and neither sink nor target fails, they are written.
    ensures answered { T.tells ≡ true → K.faults sink.new ≡ K.faults sink.old → T.faults target.new ≡ T.faults target.old
        → (asked : Words) → asked_for words.now ≡ Some asked → HasAnswer (T.holds target.old) asked
        → IsStatus result Status.Done }

    // Only a run and a replica read the source, and a run at most one byte more than an input may have. Only a run and a
    // load ask for lines, and only a run uses the shelves. The target is used only where what is in a store is asked for,
    // and by a run of a script in which a stream backs up; and what it holds only such a run changes. The doors are opened
    // only where sessions are to be served.
    ensures unread { (AskRun words.now → ⊥) → (AskReplica words.now → ⊥) → source.new ≡ source.old }
    ensures unasked { (AskRun words.now → ⊥) → (AskLoad words.now → ⊥) → wiring.new ≡ wiring.old }
    ensures unused { (AskRun words.now → ⊥) → shelves.new ≡ shelves.old }
    ensures untouched { (AskRun words.now → ⊥) → (AskStore words.now → ⊥) → target.new ≡ target.old }
    ensures spared { AskRun words.now → IfSome (S.left source.old) (λ input. (script : Script)
        → IsScript input script → All (λ s. backs_up s ≡ false) script.streams → target.new ≡ target.old) }
    ensures held { (AskRun words.now → ⊥) → T.holds target.new ≡ T.holds target.old }
    ensures unopened { (AskServe words.now → ⊥) → doors.new ≡ doors.old }
    ensures most { (AskReplica words.now → ⊥) → GivesAtMost (S.left source.old) (S.left source.new) 268435457 }

    // However the workers' steps interleave, at Done the sink has the report of one journal, or the summary of one where a
    // load was asked for: then the script is the generated one, and it begins blank. A script's begins on the folders
    // that the script opens, of which the lowest clean one is the disk, or blank. It is one legal history of the
    // script's calls, and its fault marks are faults that the run's own lines counted. What it holds fits its types,
    // so that no two such journals have one report. Where the wiring tells which lines it was asked for, these were
    // one of each stream to each replica, to fail as the script plans it, and no other. Where the lines tell what
    // they carried, it was whole frames alone; each write that was done was carried whole to each replica that is
    // read and written there, and the bytes of each read from one. One worker, where it was asked for, answers stream
    // after stream, by their numbers, and while no line has failed the journal is a function of the script, of the
    // folders, and of what the store has against its backups. Of a script that saves, the folder of each replica that
    // is read and written at the end is clean and reads as the journal's replay, and that of each in ERR says so; of
    // another the folders stay. Where the target tells what it holds, each backup that is answered `ok` is there at
    // the end, of the copy that its snapshot had where it was answered, so a later restore writes just that copy
    // (`a_backup_that_is_there_is_restored`); while the target has not failed, a backup exists exactly where it was
    // there at first or was made; and each that was there stays, and each block, and all that is none of the volume's.
    // After a fault of the target the rest is printed and saved all the same. After a write fault the sink has a
    // prefix of the report, and the folders are saved all the same; after a refusal and a read fault all is as it was.
    ensures printed { (AskStore words.now → ⊥) → (AskReplica words.now → ⊥) → (AskServe words.now → ⊥)
        → Leaves (purpose_of (asked_for words.now) (S.left source.old))
        (IsRunOf (asked_for words.now) (W.asked wiring.old) (W.asked wiring.new)
        (W.counts wiring.new) (W.carried wiring.new) (H.holds shelves.old) (H.holds shelves.new)
        (Rose (H.faults shelves.old) (H.faults shelves.new) → ⊥)
        (λ volume spot journal. T.tells ≡ true → StoreOfRun (T.holds target.old) (T.faults target.old)
        (T.holds target.new) (T.faults target.new) volume spot journal) (target.new ≡ target.old))
        (sink.new ≡ sink.old) (shelves.new ≡ shelves.old) (H.holds shelves.new ≡ H.holds shelves.old)
        (target.new ≡ target.old) (Rose (K.faults sink.old) (K.faults sink.new))
        (K.contents sink.old) (K.contents sink.new) result }

    // Where no line of a generated load has failed, its summary is a function of the words.
    ensures summed { result ≡ Status.Done → (number streams calls : ℕ)
        → asked_for words.now ≡ Some (Generate number streams calls)
        → HaveNotFailed (W.counts wiring.new) (generated number streams calls)
        → Appends (K.contents sink.old) (K.contents sink.new) (load_text number streams calls) }

    // One replica replies as a blank disk answers: to the calls before a Close, the end of the input, or the place where
    // no whole frame stands; after a fault, and where memory runs out, the sink has a prefix of such replies.
    ensures served { (size : ℕ) → asked_for words.now ≡ Some (Replica size)
        → Serves (zeros size) (S.left source.old) (K.contents sink.old) (K.contents sink.new) result }

    // However the sessions' steps interleave, at Done the sink has the report of one journal, and of how each session
    // ended. So many sessions passed the doors: where these tell, they were the first of those that were to come, and have
    // gone back behind those that had gone before. The journal is one legal history, over lines that never failed, and its
    // entries of a session are the calls of the first whole frames that the session gave: all before its Close, its end,
    // the place where no whole frame stands or the fault of its source, the first 4,096 where it gave more, and where its
    // sink failed those up to the one whose reply met that. Its sink has their replies in order, or then a prefix of them.
    // After a write fault the sink has a prefix of the report of sessions that were served so. After a door fault the sink
    // is as it was, and who had come went back untouched. Where memory ran out the sink is as it was, or has such a
    // prefix, and who had come went back: untouched, or from a session that had ended or was cut short.
    ensures hosted { (address : List ℕ) (size replicas sessions : ℕ)
        → asked_for words.now ≡ Some (Serve address size replicas sessions)
        → Hosts size replicas sessions (λ before now. D.tells ≡ true
        → HavePassed (D.coming doors.old) (D.coming doors.new) (D.back doors.old) (D.back doors.new) before now)
        (sink.new ≡ sink.old) (K.contents sink.old) (K.contents sink.new) result }

    // What is in a store is written whole at Done: the disk of a backup, or the lines of a volume's backups. After a
    // fault of the sink or of the target, and where memory runs out, the sink has a prefix of it; where an object is
    // refused it is as it was.
    ensures restored { T.tells ≡ true → (asked : Words) → asked_for words.now ≡ Some asked → IsOfStore asked
        → LeavesAnswer (T.holds target.old) asked (sink.new ≡ sink.old) (K.contents sink.old) (K.contents sink.new) result }
{
    let asked = match read_words(alloc, words) {
        Ok(asked) => asked,
        Err(WordsError::Usage) => return Status::Usage,
        Err(WordsError::NoMemory) => return Status::NoMemory,
    };
    match &asked {
        Words::Run { workers } => how_ended(run(
            rt, alloc, *workers, source, sink, wiring, shelves, target, gate,
        )),
        Words::Generate {
            number,
            streams,
            calls,
        } => how_loaded(run_load(
            rt, alloc, *number, *streams, *calls, sink, wiring, target, gate,
        )),
        Words::Replica { size } => how_served(serve_blank(rt, alloc, *size, source, sink)),
        Words::Restore { backup, volume } => restore_backup(alloc, target, volume, backup, sink),
        Words::Backups { volume } => print_backups(alloc, target, volume, sink),
        Words::Serve {
            address,
            size,
            replicas,
            sessions,
        } => how_hosted(serve_doors(
            rt,
            alloc,
            address.as_str(),
            *size,
            *replicas,
            *sessions,
            sink,
            doors,
        )),
    }
}

fn run<
    R: Threads + Wait + Sync,
    S: Source,
    K: Sink,
    W: Wiring,
    H: Shelves,
    T: Target + Send,
    G: Gate + Sync,
>(
    rt: &R,
    alloc: Global,
    workers: Workers,
    source: &mut S,
    sink: &mut K,
    wiring: &mut W,
    shelves: &mut H,
    target: &mut T,
    gate: &G,
) -> Result<(), Status>
    ensures counts { Counts (ended result) (S.faults source.old) (S.faults source.new)
        (K.faults sink.old) (K.faults sink.new) (H.faults shelves.old) (H.faults shelves.new)
        (T.faults target.old) (T.faults target.new) }
    ensures whole { ended result ≡ Status.Done → IsAtEnd (S.left source.new) }
    ensures most { GivesAtMost (S.left source.old) (S.left source.new) 268435457 }
    ensures found { Found (S.left source.old) (H.holds shelves.old) (ended result) }
    ensures spared { IfSome (S.left source.old) (λ input. (script : Script)
        → IsScript input script → All (λ s. backs_up s ≡ false) script.streams → target.new ≡ target.old) }
    ensures printed { Leaves (script_purpose (S.left source.old))
        (IsRunOf (Some (Run workers)) (W.asked wiring.old) (W.asked wiring.new)
        (W.counts wiring.new) (W.carried wiring.new) (H.holds shelves.old) (H.holds shelves.new)
        (Rose (H.faults shelves.old) (H.faults shelves.new) → ⊥)
        (λ volume spot journal. T.tells ≡ true → StoreOfRun (T.holds target.old) (T.faults target.old)
        (T.holds target.new) (T.faults target.new) volume spot journal) (target.new ≡ target.old))
        (sink.new ≡ sink.old) (shelves.new ≡ shelves.old) (H.holds shelves.new ≡ H.holds shelves.old)
        (target.new ≡ target.old) (Rose (K.faults sink.old) (K.faults sink.new))
        (K.contents sink.old) (K.contents sink.new) (ended result) }
{
    let input = read_input(alloc, source)?;
    let script = read_script(alloc, &input)?;
    let Begun {
        world,
        reasons,
        heads,
    } = begin(alloc, &script, shelves)?;
    let saving = saving_time(alloc, &script)?;
    let served = serve_by(rt, alloc, workers, script, world, wiring, target, gate)?;
    let run = ServedRun {
        served,
        reasons,
        heads,
        saving,
    };
    let finished = finish(rt, alloc, &run, sink, shelves);
    forget(run);
    finished
}

/// The status of a run that ended so.
fn how_ended(run: Result<(), Status>) -> Status
    ensures { result ≡ ended run }
{
    match run {
        Ok(()) => Status::Done,
        Err(status) => status,
    }
}

/// The time of a run that saves.
fn saving_time(alloc: Global, script: &Script) -> Result<Option<TimeText>, AllocError>
    ensures saves { IfOk result (λ time. script.entry.now.saves ≡ true → time ≡ Some script.entry.now.now) }
    ensures none { IfOk result (λ time. script.entry.now.saves ≡ false → time ≡ None) }
{
    if script.saves {
        Ok(Some(same_time(alloc, &script.now)?))
    } else {
        Ok(None)
    }
}

/// The same text once more.
fn same_time(alloc: Global, time: &TimeText) -> Result<TimeText, AllocError>
    ensures { IfOk result (λ same. same ≡ time.now) }
{
    match TimeText::read(alloc, time.as_str())? {
        Some(same) => Ok(same),
        None => unreachable!(),
    }
}

/// Serves the streams of a script by these workers.
fn serve_by<R: Threads + Wait + Sync, W: Wiring, T: Target + Send, G: Gate + Sync>(
    rt: &R,
    alloc: Global,
    workers: Workers,
    script: Script,
    world: World,
    wiring: &mut W,
    target: &mut T,
    gate: &G,
) -> Result<ServedStreams, AllocError>
    requires good { IsGood script }
    requires begun { (spot : Spot) × IsBegun script spot world }
    ensures served { (spot : Spot) → IsBegun script spot world
        → IfOk result (IsServed script spot (W.counts wiring.new) (W.carried wiring.new)) }
    ensures turns { (spot : Spot) → IsBegun script spot world → workers ≡ Workers.One
        → IfOk result (IsServedInTurn script spot (W.counts wiring.new)) }
    ensures asked { OnOk result (TellsMore (W.asked wiring.old) (W.asked wiring.new) (asks_in script)) }
    ensures store { (spot : Spot) → IsBegun script spot world → IfOk result (λ served. T.tells ≡ true
        → StoreOfRun (T.holds target.old) (T.faults target.old) (T.holds target.new) (T.faults target.new)
        script.volume spot served.world.journal.entries) }
    ensures fault { IfOk result (λ served. TellsFault served.target_fault
        (T.faults target.old) (T.faults target.new)) }
    ensures later { T.faults target.old ≤ T.faults target.new }
    ensures unasked { All (λ s. backs_up s ≡ false) script.streams → target.new ≡ target.old }
{
    match workers {
        Workers::One => stream_turns::serve(rt, alloc, script, world, wiring, target),
        Workers::Each => stream_workers::serve(rt, alloc, script, world, wiring, target, gate),
    }
}
