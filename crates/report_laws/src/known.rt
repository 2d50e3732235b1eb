ghost use Rattle.report_laws.specs.Fits.{AllFit, AnswerFits, AreBytes, CallFits, CommandFits, EntryFits, MarkFits, PartFits, ReplyFits};
ghost use Rattle.packed_entries.specs.View.{entry_seen, answer_seen, call_seen, reply_seen, list_seen};
ghost use Rattle.vol_units.specs.Name.{IsName};

use journal_book::{AnswerView, CallView, EntryView, Journal, ListView, ReplyView};
use volume_model::{Command, FoldOrDrop, LayerName, Mark};

/// What the entries of a program's journal hold fits its type, as is known of each value that is looked at: names are names,
/// numbers have at most 64 bits. A law ranges over all lists of bytes and all numbers, so this looks at each field once, and
/// does nothing.
pub fn know_journal(journal: &Journal)
    ensures { AllFit journal.now.entries }
{
    for place in 0..journal.len() {
        know_entry(&journal.entry(place));
    }
}

/// The same of one entry.
pub fn know_entry(entry: &EntryView<'_>)
    ensures { EntryFits (entry_seen entry.now) }
{
    match entry {
        EntryView::Answer(answer) => know_answer(answer),
        EntryView::Mark(mark) => know_mark(mark),
    }
}

fn know_answer(answer: &AnswerView<'_>)
    ensures { AnswerFits (answer_seen answer.now) }
{
    know_call(&answer.call);
    know_reply(&answer.reply);
    let _saw = answer.saw;
    let _stream = answer.stream;
    let _index = answer.index;
}

fn know_call(call: &CallView<'_>)
    ensures { CallFits (call_seen call.now) }
{
    match call {
        CallView::Read { offset, length } => {
            let _offset = *offset;
            let _length = *length;
        }
        CallView::Write { offset, bytes } => {
            let _offset = *offset;
            know_list(bytes);
        }
        CallView::Ping => {}
        CallView::Other(kind) => {
            let _kind = *kind;
        }
        CallView::Command(command) => know_command(command),
    }
}

fn know_command(command: &Command)
    ensures { CommandFits command.now }
{
    match command {
        Command::Snapshot(name) => {
            let _bytes = name.as_bytes();
        }
        Command::Remove(name) | Command::Revert(name) => know_layer(name),
        Command::Backup { backup, snapshot } => {
            let _bytes = backup.as_bytes();
            know_layer(snapshot);
        }
        Command::Purge | Command::Status => {}
        Command::Fail(replica) | Command::Add(replica) => {
            let _replica = *replica;
        }
    }
}

fn know_reply(reply: &ReplyView<'_>)
    ensures { ReplyFits (reply_seen reply.now) }
{
    match reply {
        ReplyView::Read(bytes) => know_list(bytes),
        ReplyView::Status { layers, .. } => {
            let _layers = *layers;
        }
        ReplyView::Aborted(place) => {
            let _place = *place;
        }
        ReplyView::Done | ReplyView::Refused(_) => {}
    }
}

fn know_mark(mark: &Mark)
    ensures { MarkFits mark.now }
{
    match mark {
        Mark::Purged(part) => know_part(part),
        Mark::Fault {
            stream,
            replica,
            count,
        } => {
            let _stream = *stream;
            let _replica = *replica;
            let _count = *count;
        }
        Mark::Added {
            replica,
            source,
            name,
        } => {
            let _replica = *replica;
            let _source = *source;
            know_layer(name);
        }
        Mark::Failed(replica) | Mark::Promoted(replica) | Mark::Aborted(replica) => {
            let _replica = *replica;
        }
    }
}

fn know_part(part: &FoldOrDrop)
    ensures { PartFits part.now }
{
    match part {
        FoldOrDrop::Fold { parent, child } => {
            know_layer(parent);
            know_layer(child);
        }
        FoldOrDrop::Drop(name) => know_layer(name),
    }
}

fn know_layer(name: &LayerName)
    ensures { IsName name.now }
{
    let _bytes = name.as_bytes();
}

fn know_list(list: &ListView<'_>)
    ensures { AreBytes (list_seen list.now) }
{
    list.know();
    let _length = list.len();
}
