//! What the entries of a run leave of the names that snapshots were taken under.

ghost use Rattle.std.specs.Prelude.{◌≡◌, ◌+◌, ◌<◌, ◌≤◌};
ghost use Rattle.indexmap.specs.IndexMap.{spare};
ghost use Rattle.volume_model.specs.Names.{names_after_call, names_after_mark, names_after_entry};
ghost use Rattle.journal_book.specs.Taken.{taken_of};

use crate::taken::{NameMap, mark, take_reserved};
use volume_model::{Call, Command, Entry, LayerName, Mark, Reply};

/// Makes the names what they are after the entry. It takes no memory.
pub(crate) fn follow_names(names: &mut NameMap, entry: &Entry)
    requires { 0 < spare names.old }
    ensures names { taken_of names.new.entries
        ≡ names_after_entry (taken_of names.old.entries) entry.now }
    ensures spare { spare names.old ≤ spare names.new + 1 }
{
    match entry {
        Entry::Answer(answer) => match &answer.reply {
            Reply::Refused(_) | Reply::Aborted(_) => {}
            _ => follow_call(names, &answer.call),
        },
        Entry::Mark(mark) => follow_mark(names, mark),
    }
}

fn follow_call(names: &mut NameMap, call: &Call)
    requires { 0 < spare names.old }
    ensures names { taken_of names.new.entries
        ≡ names_after_call (taken_of names.old.entries) call.now }
    ensures spare { spare names.old ≤ spare names.new + 1 }
{
    match call {
        Call::Command(Command::Snapshot(name)) => take_reserved(names, LayerName::from(*name)),
        Call::Command(Command::Remove(name)) => mark(names, name),
        _ => {}
    }
}

fn follow_mark(names: &mut NameMap, mark: &Mark)
    requires { 0 < spare names.old }
    ensures names { taken_of names.new.entries
        ≡ names_after_mark (taken_of names.old.entries) mark.now }
    ensures spare { spare names.old ≤ spare names.new + 1 }
{
    match mark {
        // A rebuild begins with the engine's own snapshot.
        Mark::Added { name, .. } => take_reserved(names, *name),
        // A name whose layer went stays taken.
        Mark::Purged(_) => {}
        Mark::Fault { .. } | Mark::Failed(_) | Mark::Promoted(_) | Mark::Aborted(_) => {}
    }
}
