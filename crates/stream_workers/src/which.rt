//! Which stream has backups.

ghost use Rattle.std.specs.Prelude.{◌≡◌, ◌≢◌, ◌<◌, ◌≤◌, ℕ, true, false, length, count_by, slice_index_or};
ghost use Rattle.volume_model.specs.Modes.{asks_store};
ghost use Rattle.volume_model.specs.declared.call.Call.TheVariants as call;
ghost use Rattle.script_head.specs.Members.{has_backup};
ghost use Rattle.script_text.specs.Good.{backs_up};
ghost use Rattle.script_text.specs.declared.script.Stream.{Stream};

use script_text::{Command, Stream};

/// The place of the one stream that has backups, or one past the last where none has.
pub(crate) fn backing_up(streams: &[Stream]) -> usize
    requires { count_by backs_up streams.now ≤ 1 }
    ensures there { result < length streams.now
        → (d : Stream) → backs_up (slice_index_or streams.now result d) ≡ true }
    ensures others { (k : ℕ) (d : Stream) → k < length streams.now → k ≢ result
        → backs_up (slice_index_or streams.now k d) ≡ false }
{
    for place in 0..streams.len() {
        if backs_up(&streams[place]) {
            return place;
        }
    }
    streams.len()
}

/// Whether it is a stream with backups.
fn backs_up(stream: &Stream) -> bool
    ensures { result ≡ backs_up stream.now }
{
    match stream {
        Stream::Frames(_) => false,
        Stream::Control(commands) => has_backup(commands.as_slice()),
    }
}

/// Whether a backup is among the commands.
fn has_backup(commands: &[Command]) -> bool
    ensures { result ≡ has_backup commands.now }
{
    commands.iter().any(|command| is_backup(command))
}

fn is_backup(command: &Command) -> bool
    ensures { result ≡ asks_store (call.Command command.now) }
{
    matches!(command, Command::Backup { .. })
}
