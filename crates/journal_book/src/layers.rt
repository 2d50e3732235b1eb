//! What the entries of a run leave of the count of layers.

ghost use Rattle.std.specs.Prelude.{◌≡◌, ◌+◌, ◌^◌, ◌<◌, ◌≤◌};
ghost use Rattle.volume_model.specs.Names.{layers_after_call, layers_after_mark, layers_after_entry};

use volume_model::{Call, Command, Entry, Mark, Reply};

/// How many layers there are after the entry, of so many before it.
pub(crate) fn layers_after(layers: u64, entry: &Entry) -> u64
    requires { layers + 1 < 2 ^ 64 }
    ensures layers { result ≡ layers_after_entry layers entry.now }
    ensures one_more { result ≤ layers + 1 }
{
    match entry {
        Entry::Answer(answer) => match &answer.reply {
            Reply::Refused(_) | Reply::Aborted(_) => layers,
            _ => layers_after_call(layers, &answer.call),
        },
        Entry::Mark(mark) => layers_after_mark(layers, mark),
    }
}

fn layers_after_call(layers: u64, call: &Call) -> u64
    requires { layers + 1 < 2 ^ 64 }
    ensures layers { result ≡ layers_after_call layers call.now }
    ensures one_more { result ≤ layers + 1 }
{
    match call {
        Call::Command(Command::Snapshot(_)) => layers + 1,
        _ => layers,
    }
}

fn layers_after_mark(layers: u64, mark: &Mark) -> u64
    requires { layers + 1 < 2 ^ 64 }
    ensures layers { result ≡ layers_after_mark layers mark.now }
    ensures one_more { result ≤ layers + 1 }
{
    match mark {
        // Each part of a purge takes one layer.
        Mark::Purged(_) => layers.saturating_sub(1),
        // A rebuild begins with the engine's own snapshot.
        Mark::Added { .. } => layers + 1,
        Mark::Fault { .. } | Mark::Failed(_) | Mark::Promoted(_) | Mark::Aborted(_) => layers,
    }
}
