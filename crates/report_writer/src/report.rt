ghost use Rattle.std.specs.Prelude.{◌≡◌, ◌<◌, ◌++◌, length, map, IfOk, OnOk, vec_len};
ghost use Rattle.std.specs.Io.KnownBytes.{Appends};
ghost use Rattle.outer_traits.specs.Causes.{HasOuterCause};
ghost use Rattle.outer_traits.specs.Passing.{WritesPrefix, Passes};
ghost use Rattle.outer_traits.specs.declared.output.TheConstants.{PIECE};
ghost use Rattle.run_report.specs.Lines.{entry_line, reply_line};
ghost use Rattle.run_report.specs.Report.{journal_lines, reply_lines, replies_from};
ghost use Rattle.run_report.specs.Sessions.{session_line, session_lines};
ghost use Rattle.journal_book.specs.Book.{modes_of};
ghost use Rattle.packed_entries.specs.View.{entry_seen, answer_seen};
ghost use Rattle.volume_model.specs.History.{answers_of};
ghost use Rattle.replica_node.specs.Volume.{volume_of_node};
ghost use Rattle.report_laws.specs.Fits.{AllFit};
ghost use Rattle.report_writer.specs.Written.{between_text, end_text, entries_text, sessions_text, written_text};
ghost use Rattle.report_writer.specs.Written.{HasFewSessions};

use crate::end::print_end;
use crate::heads::head_for;
use frame_wire::Head;
use journal_book::{AnswerView, EntryView, Journal};
use outer_traits::{Outer, Sink, pass_on, write_all};
use replica_node::ReplicaNode;
use report_laws::know_entry;
use run_report::{EndedSession, print_entry, print_reply, print_session};
use script_text::Heads;
use std::alloc::{AllocError, Global};
use std::thread;
use std::thread::Threads;

/// What stands in a report between the lines of the entries and those of the replicas.
#[derive(Clone, Copy)]
enum Between<'a> {
    /// The replies of each stream, to frames with these headers.
    Replies(&'a [Heads]),
    /// The line of each session.
    Sessions(&'a [EndedSession]),
}

/// Writes the report of a run on these replicas, at most 255, as they are at its end. It begins with what was opened: the
/// lines of the replicas whose folders were, and nothing where none was. The headers are those of each stream's frames: a
/// control stream has none. The heads are digested beside the lines of the calls, in a thread of its own where one can be
/// made. Once all is written, what the entries hold is known.
pub fn write_report<R: Threads + Sync, K: Sink>(
    rt: &R,
    alloc: Global,
    opened: Vec<u8>,
    heads: &[Heads],
    journal: &Journal,
    replicas: &[ReplicaNode],
    sink: &mut K,
) -> Outer<()>
    requires few { length (modes_of journal.now) < 256 }
    requires each { length replicas.now ≡ length (modes_of journal.now) }
    ensures whole { OnOk result (Appends (K.contents sink.old) (K.contents sink.new)
        (written_text opened.items heads.now journal.now (map volume_of_node replicas.now))) }
    ensures prefix { WritesPrefix (K.contents sink.old) (K.contents sink.new)
        (written_text opened.items heads.now journal.now (map volume_of_node replicas.now)) }
    ensures cause { HasOuterCause (K.faults sink.old) (K.faults sink.new) result }
    ensures fits { OnOk result (AllFit journal.now.entries) }
{
    let replies = Between::Replies(heads);
    write_around(rt, alloc, opened, replies, journal, replicas, sink)
}

/// Writes the report of a run that sessions were served in, at most 255, as `write_report` does: no folder was opened, and in
/// place of the replies a line for each session tells how it ended.
pub fn write_sessions<R: Threads + Sync, K: Sink>(
    rt: &R,
    alloc: Global,
    sessions: &[EndedSession],
    journal: &Journal,
    replicas: &[ReplicaNode],
    sink: &mut K,
) -> Outer<()>
    requires few { length (modes_of journal.now) < 256 }
    requires each { length replicas.now ≡ length (modes_of journal.now) }
    requires few_sessions { length sessions.now < 256 }
    ensures whole { OnOk result (Appends (K.contents sink.old) (K.contents sink.new)
        (sessions_text sessions.now journal.now (map volume_of_node replicas.now))) }
    ensures prefix { WritesPrefix (K.contents sink.old) (K.contents sink.new)
        (sessions_text sessions.now journal.now (map volume_of_node replicas.now)) }
    ensures cause { HasOuterCause (K.faults sink.old) (K.faults sink.new) result }
    ensures fits { OnOk result (AllFit journal.now.entries) }
{
    let opened = Vec::new(alloc);
    let lines = Between::Sessions(sessions);
    write_around(rt, alloc, opened, lines, journal, replicas, sink)
}

/// Writes a report, whatever stands in it between the lines of the entries and those of the replicas.
fn write_around<R: Threads + Sync, K: Sink>(
    rt: &R,
    alloc: Global,
    opened: Vec<u8>,
    between: Between<'_>,
    journal: &Journal,
    replicas: &[ReplicaNode],
    sink: &mut K,
) -> Outer<()>
    requires few { length (modes_of journal.now) < 256 }
    requires each { length replicas.now ≡ length (modes_of journal.now) }
    requires few_sessions { HasFewSessions between }
    ensures whole { OnOk result (Appends (K.contents sink.old) (K.contents sink.new)
        (opened.items ++ entries_text between.entry journal.now.entries
        ++ end_text (modes_of journal.now) (map volume_of_node replicas.now))) }
    ensures prefix { WritesPrefix (K.contents sink.old) (K.contents sink.new)
        (opened.items ++ entries_text between.entry journal.now.entries
        ++ end_text (modes_of journal.now) (map volume_of_node replicas.now)) }
    ensures cause { HasOuterCause (K.faults sink.old) (K.faults sink.new) result }
    ensures fits { OnOk result (AllFit journal.now.entries) }
{
    // The lines of the opening go out first, with those behind them.
    let mut buffer = opened;
    let (end, passed) = print_beside(rt, alloc, between, journal, replicas, sink, &mut buffer);
    passed?;
    buffer.append(&mut end?)?;
    write_all(sink, &buffer)
}

/// Prints the lines of the entries and those behind them, and beside that the text of what the run leaves: the heads are
/// digested while the sink takes lines.
fn print_beside<R: Threads + Sync, K: Sink>(
    rt: &R,
    alloc: Global,
    between: Between<'_>,
    journal: &Journal,
    replicas: &[ReplicaNode],
    sink: &mut K,
    buffer: &mut Vec<u8>,
) -> (Result<Vec<u8>, AllocError>, Outer<()>)
    requires few { length (modes_of journal.now) < 256 }
    requires each { length replicas.now ≡ length (modes_of journal.now) }
    requires few_sessions { HasFewSessions between }
    ensures end { IfOk result.0 (λ text. text.items
        ≡ end_text (modes_of journal.now) (map volume_of_node replicas.now)) }
    ensures passed { OnOk result.1 (Passes (K.contents sink.old) (K.contents sink.new)
        buffer.old.items buffer.new.items (entries_text between.entry journal.now.entries)) }
    ensures prefix { WritesPrefix (K.contents sink.old) (K.contents sink.new)
        (buffer.old.items ++ entries_text between.entry journal.now.entries) }
    ensures cause { HasOuterCause (K.faults sink.old) (K.faults sink.new) result.1 }
    ensures fits { OnOk result.1 (AllFit journal.now.entries) }
{
    let modes = journal.modes();
    let mut end = || -> Result<Vec<u8>, AllocError>
        requires { (length modes.now < 256) × (length replicas.now ≡ length modes.now) }
        ensures { IfOk result (λ text. text.items ≡ end_text modes.entry.now (map volume_of_node replicas.entry.now)) }
    { print_end(alloc, modes, replicas) };
    let mut lines = || -> Outer<()>
        requires { HasFewSessions between }
        ensures passed { OnOk result (Passes (K.contents sink.entry.now) (K.contents sink.exit.now)
            buffer.entry.now.items buffer.exit.now.items (entries_text between.entry journal.entry.now.entries)) }
        ensures prefix { WritesPrefix (K.contents sink.entry.now) (K.contents sink.exit.now)
            (buffer.entry.now.items ++ entries_text between.entry journal.entry.now.entries) }
        ensures cause { HasOuterCause (K.faults sink.entry.now) (K.faults sink.exit.now) result }
        ensures fits { OnOk result (AllFit journal.entry.now.entries) }
    { pass_lines(alloc, between, journal, sink, buffer) };
    thread::join_mut(rt, &mut end, &mut lines)
}

/// Prints the lines of all entries, and then those that stand behind them.
fn pass_lines<K: Sink>(
    alloc: Global,
    between: Between<'_>,
    journal: &Journal,
    sink: &mut K,
    buffer: &mut Vec<u8>,
) -> Outer<()>
    requires { HasFewSessions between }
    ensures passed { OnOk result (Passes (K.contents sink.old) (K.contents sink.new)
        buffer.old.items buffer.new.items (entries_text between.entry journal.now.entries)) }
    ensures prefix { WritesPrefix (K.contents sink.old) (K.contents sink.new)
        (buffer.old.items ++ entries_text between.entry journal.now.entries) }
    ensures cause { HasOuterCause (K.faults sink.old) (K.faults sink.new) result }
    ensures fits { OnOk result (AllFit journal.now.entries) }
{
    pass_entries(journal, sink, buffer)?;
    pass_between(alloc, between, journal, sink, buffer)
}

/// Prints what stands behind the lines of the entries.
fn pass_between<K: Sink>(
    alloc: Global,
    between: Between<'_>,
    journal: &Journal,
    sink: &mut K,
    buffer: &mut Vec<u8>,
) -> Outer<()>
    requires { HasFewSessions between }
    ensures passed { OnOk result (Passes (K.contents sink.old) (K.contents sink.new)
        buffer.old.items buffer.new.items (between_text between.entry journal.now.entries)) }
    ensures prefix { WritesPrefix (K.contents sink.old) (K.contents sink.new)
        (buffer.old.items ++ between_text between.entry journal.now.entries) }
    ensures cause { HasOuterCause (K.faults sink.old) (K.faults sink.new) result }
{
    match between {
        Between::Replies(heads) => pass_streams(alloc, heads, journal, sink, buffer),
        Between::Sessions(sessions) => pass_sessions(sessions, sink, buffer),
    }
}

/// Prints the lines of all entries, and learns what they hold.
fn pass_entries<K: Sink>(journal: &Journal, sink: &mut K, buffer: &mut Vec<u8>) -> Outer<()>
    ensures passed { OnOk result (Passes (K.contents sink.old) (K.contents sink.new)
        buffer.old.items buffer.new.items (journal_lines 0 journal.now.entries)) }
    ensures prefix { WritesPrefix (K.contents sink.old) (K.contents sink.new)
        (buffer.old.items ++ journal_lines 0 journal.now.entries) }
    ensures cause { HasOuterCause (K.faults sink.old) (K.faults sink.new) result }
    ensures fits { OnOk result (AllFit journal.now.entries) }
{
    for place in 0..journal.len() {
        let entry = journal.entry(place);
        know_entry(&entry);
        pass_entry(place, &entry, sink, buffer)?;
    }
    Ok(())
}

/// Prints the replies of each stream in turn, to frames with these headers.
fn pass_streams<K: Sink>(
    alloc: Global,
    streams: &[Heads],
    journal: &Journal,
    sink: &mut K,
    buffer: &mut Vec<u8>,
) -> Outer<()>
    ensures passed { OnOk result (Passes (K.contents sink.old) (K.contents sink.new)
        buffer.old.items buffer.new.items (replies_from 0 streams.now journal.now.entries)) }
    ensures prefix { WritesPrefix (K.contents sink.old) (K.contents sink.new)
        (buffer.old.items ++ replies_from 0 streams.now journal.now.entries) }
    ensures cause { HasOuterCause (K.faults sink.old) (K.faults sink.new) result }
{
    for (stream, heads) in streams.iter().enumerate() {
        pass_replies(alloc, stream, heads, journal, sink, buffer)?;
    }
    Ok(())
}

/// Prints the replies of a stream to frames with these headers, in one walk over the journal.
fn pass_replies<K: Sink>(
    alloc: Global,
    stream: usize,
    heads: &Heads,
    journal: &Journal,
    sink: &mut K,
    buffer: &mut Vec<u8>,
) -> Outer<()>
    ensures passed { OnOk result (Passes (K.contents sink.old) (K.contents sink.new)
        buffer.old.items buffer.new.items (reply_lines heads.now (answers_of stream journal.now.entries))) }
    ensures prefix { WritesPrefix (K.contents sink.old) (K.contents sink.new)
        (buffer.old.items ++ reply_lines heads.now (answers_of stream journal.now.entries)) }
    ensures cause { HasOuterCause (K.faults sink.old) (K.faults sink.new) result }
{
    if heads.is_empty() {
        // A control stream has no frames, and the journal may be long.
        return Ok(());
    }
    let mut left = heads.left(alloc)?;
    for place in 0..journal.len() {
        // A mark has no reply.
        let Some(answer) = journal.entry(place).into_answer() else {
            continue;
        };
        match head_for(stream, &mut left, &answer)? {
            Some(asked) => pass_reply(&asked, &answer, sink, buffer)?,
            None => {}
        }
    }
    Ok(())
}

/// Prints the line of each session, the first of which is 0.
fn pass_sessions<K: Sink>(
    sessions: &[EndedSession],
    sink: &mut K,
    buffer: &mut Vec<u8>,
) -> Outer<()>
    requires { length sessions.now < 256 }
    ensures passed { OnOk result (Passes (K.contents sink.old) (K.contents sink.new)
        buffer.old.items buffer.new.items (session_lines 0 sessions.now)) }
    ensures prefix { WritesPrefix (K.contents sink.old) (K.contents sink.new)
        (buffer.old.items ++ session_lines 0 sessions.now) }
    ensures cause { HasOuterCause (K.faults sink.old) (K.faults sink.new) result }
{
    for (session, ended) in sessions.iter().enumerate() {
        pass_session(session as u8, ended, sink, buffer)?;
    }
    Ok(())
}

/// Prints a line, and passes the buffer on where it is a large piece by then.
fn pass_entry<K: Sink>(
    place: u64,
    entry: &EntryView<'_>,
    sink: &mut K,
    buffer: &mut Vec<u8>,
) -> Outer<()>
    ensures small { OnOk result (vec_len buffer.new < PIECE) }
    ensures passed { OnOk result (Passes (K.contents sink.old) (K.contents sink.new)
        buffer.old.items buffer.new.items (entry_line place (entry_seen entry.now))) }
    ensures prefix { WritesPrefix (K.contents sink.old) (K.contents sink.new)
        (buffer.old.items ++ entry_line place (entry_seen entry.now)) }
    ensures cause { HasOuterCause (K.faults sink.old) (K.faults sink.new) result }
{
    print_entry(place, entry, buffer)?;
    pass_on(sink, buffer)
}

fn pass_reply<K: Sink>(
    asked: &Head,
    answer: &AnswerView<'_>,
    sink: &mut K,
    buffer: &mut Vec<u8>,
) -> Outer<()>
    ensures small { OnOk result (vec_len buffer.new < PIECE) }
    ensures passed { OnOk result (Passes (K.contents sink.old) (K.contents sink.new)
        buffer.old.items buffer.new.items (reply_line asked.now (answer_seen answer.now))) }
    ensures prefix { WritesPrefix (K.contents sink.old) (K.contents sink.new)
        (buffer.old.items ++ reply_line asked.now (answer_seen answer.now)) }
    ensures cause { HasOuterCause (K.faults sink.old) (K.faults sink.new) result }
{
    print_reply(asked, answer, buffer)?;
    pass_on(sink, buffer)
}

fn pass_session<K: Sink>(
    session: u8,
    ended: &EndedSession,
    sink: &mut K,
    buffer: &mut Vec<u8>,
) -> Outer<()>
    ensures small { OnOk result (vec_len buffer.new < PIECE) }
    ensures passed { OnOk result (Passes (K.contents sink.old) (K.contents sink.new)
        buffer.old.items buffer.new.items (session_line session ended.now)) }
    ensures prefix { WritesPrefix (K.contents sink.old) (K.contents sink.new)
        (buffer.old.items ++ session_line session ended.now) }
    ensures cause { HasOuterCause (K.faults sink.old) (K.faults sink.new) result }
{
    print_session(session, ended, buffer)?;
    pass_on(sink, buffer)
}
