ghost use Rattle.std.specs.Prelude.{◌≡◌, ◌<◌, ◌++◌, length, map, option_map, Some, OnOk, IfOk};
ghost use Rattle.std.specs.Io.KnownBytes.{Appends};
ghost use Rattle.outer_traits.specs.Causes.{HasOuterCause};
ghost use Rattle.outer_traits.specs.Passing.{WritesPrefix};
ghost use Rattle.digest.specs.Digest.{digest_text};
ghost use Rattle.load_laws.specs.Result.{replies_of};
ghost use Rattle.run_report.specs.Summary.{stream_lines, volume_lines, replying_frames, frames_from};
ghost use Rattle.journal_book.specs.Book.{modes_of};
ghost use Rattle.packed_entries.specs.View.{reply_seen};
ghost use Rattle.volume_model.specs.History.{answers_of};
ghost use Rattle.replica_node.specs.Volume.{volume_of_node};
ghost use Rattle.report_writer.specs.Written.{calls_text, source_volume, written_summary};

use crate::digests::digest_of_head;
use crate::heads::head_for;
use digest::Digest;
use journal_book::{Journal, ReplyView};
use outer_traits::{Outer, Sink, write_all};
use replica_node::ReplicaNode;
use run_report::{digest_reply, print_chain, print_control, print_disk, print_modes, print_stream};
use script_text::Heads;
use std::alloc::{AllocError, Global};
use std::thread;
use std::thread::Threads;

/// Writes the summary of a run of a generated load on these replicas, as they are at its end. The headers are those of the
/// frames of each stream of frames; the next stream is the control stream. The disk is digested beside the replies, in a
/// thread of its own where one can be made.
pub fn write_summary<R: Threads + Sync, K: Sink>(
    rt: &R,
    alloc: Global,
    heads: &[Heads],
    journal: &Journal,
    replicas: &[ReplicaNode],
    sink: &mut K,
) -> Outer<()>
    requires streams { length heads.now < 256 }
    requires each { length replicas.now ≡ length (modes_of journal.now) }
    ensures whole { OnOk result (Appends (K.contents sink.old) (K.contents sink.new)
        (written_summary heads.now journal.now (map volume_of_node replicas.now))) }
    ensures prefix { WritesPrefix (K.contents sink.old) (K.contents sink.new)
        (written_summary heads.now journal.now (map volume_of_node replicas.now)) }
    ensures cause { HasOuterCause (K.faults sink.old) (K.faults sink.new) result }
{
    // The text is short: a line for each stream, and a few more.
    let text = print_summary(rt, alloc, heads, journal, replicas)?;
    write_all(sink, &text)
}

fn print_summary<R: Threads + Sync>(
    rt: &R,
    alloc: Global,
    heads: &[Heads],
    journal: &Journal,
    replicas: &[ReplicaNode],
) -> Result<Vec<u8>, AllocError>
    requires streams { length heads.now < 256 }
    requires each { length replicas.now ≡ length (modes_of journal.now) }
    ensures { IfOk result (λ text. text.items
        ≡ written_summary heads.now journal.now (map volume_of_node replicas.now)) }
{
    let Some(replica) = source_of(journal, replicas) else {
        return print_calls(alloc, heads, journal);
    };
    let (volume, calls) = thread::join(
        rt,
        move || -> Result<Vec<u8>, AllocError>
            ensures { IfOk result (λ text. text.items ≡ volume_lines (Some (volume_of_node replica.entry.now))) }
        { print_volume(alloc, replica) },
        move || -> Result<Vec<u8>, AllocError>
            requires { length heads.now < 256 }
            ensures { IfOk result (λ text. text.items ≡ calls_text heads.entry.now journal.entry.now) }
        { print_calls(alloc, heads, journal) },
    );
    let mut text = calls?;
    text.append(&mut volume?)?;
    Ok(text)
}

/// The line of each stream, and that of the modes.
fn print_calls(alloc: Global, heads: &[Heads], journal: &Journal) -> Result<Vec<u8>, AllocError>
    requires { length heads.now < 256 }
    ensures { IfOk result (λ text. text.items ≡ calls_text heads.now journal.now) }
{
    let mut text = Vec::new(alloc);
    print_streams(alloc, heads, journal, &mut text)?;
    print_control(&replies_to(alloc, heads.len(), journal)?, &mut text)?;
    print_modes(journal.modes(), &mut text)?;
    Ok(text)
}

/// The line of each stream of frames.
fn print_streams(
    alloc: Global,
    streams: &[Heads],
    journal: &Journal,
    into: &mut Vec<u8>,
) -> Result<(), AllocError>
    requires { length streams.now < 256 }
    ensures { OnOk result (into.new.items
        ≡ into.old.items ++ stream_lines 0 (frames_from 0 streams.now journal.now.entries)) }
{
    for (stream, heads) in streams.iter().enumerate() {
        let digest = digest_of_replies(alloc, stream, heads, journal)?;
        print_stream(stream as u8, &digest, into)?;
    }
    Ok(())
}

/// The digest of the frames that reply to the frames of a stream, in one walk over the journal. Each is hashed as it
/// lies there, and no list of them is made.
fn digest_of_replies(
    alloc: Global,
    stream: usize,
    heads: &Heads,
    journal: &Journal,
) -> Result<[u8; 64], AllocError>
    ensures { IfOk result (λ digest. digest
        ≡ digest_text (replying_frames heads.now (answers_of stream journal.now.entries))) }
{
    let mut digest = Digest::new();
    let mut left = heads.left(alloc)?;
    for place in 0..journal.len() {
        // A mark has no reply.
        let Some(answer) = journal.entry(place).into_answer() else {
            continue;
        };
        match head_for(stream, &mut left, &answer)? {
            Some(asked) => digest_reply(alloc, &asked, &answer, &mut digest)?,
            None => {}
        }
    }
    Ok(digest.text())
}

/// What the calls of a stream were answered, in the journal's order.
fn replies_to<'a>(
    alloc: Global,
    stream: usize,
    journal: &'a Journal,
) -> Result<Vec<ReplyView<'a>>, AllocError>
    ensures { IfOk result (λ replies.
        map reply_seen replies.items ≡ replies_of stream journal.now.entries) }
{
    let mut replies = Vec::new(alloc);
    for place in 0..journal.len() {
        let Some(answer) = journal.entry(place).into_answer() else {
            continue;
        };
        if usize::from(answer.stream) == stream {
            replies.push(answer.reply)?;
        }
    }
    Ok(replies)
}

/// The lowest replica that is read and written, if there is one.
fn source_of<'a>(journal: &Journal, replicas: &'a [ReplicaNode]) -> Option<&'a ReplicaNode>
    requires { length replicas.now ≡ length (modes_of journal.now) }
    ensures { option_map (λ r. volume_of_node r.now) result
        ≡ source_volume (modes_of journal.now) (map volume_of_node replicas.now) }
{
    let source = journal.source()?;
    Some(&replicas[usize::from(source)])
}

/// The chain and the disk of a replica.
fn print_volume(alloc: Global, replica: &ReplicaNode) -> Result<Vec<u8>, AllocError>
    ensures { IfOk result (λ text. text.items ≡ volume_lines (Some (volume_of_node replica.now))) }
{
    let mut text = Vec::new(alloc);
    print_chain(None, &replica.chain(alloc)?, &mut text)?;
    print_disk(&digest_of_head(replica), &mut text)?;
    Ok(text)
}
