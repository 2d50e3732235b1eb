//! What is asked of a store of backups.

ghost use Rattle.std.specs.Prelude.{◌≡◌, true};
ghost use Rattle.program_words.specs.declared.words.Words.TheVariants.{Restore, Backups};
ghost use Rattle.volume_cli.specs.Stores.{AnswersStore, LeavesAnswer, StoreCounts, IsEndOf};

use crate::status::{ObjectName, Status};
use backup_restore::{RestoreError, list_backups, restore};
use outer_traits::Sink;
use std::alloc::Global;
use target_traits::Target;
use vol_units::PlainName;

/// Writes the disk of a volume's backup to the sink.
pub(crate) fn restore_backup<T: Target, K: Sink>(
    alloc: Global,
    target: &mut T,
    volume: &PlainName,
    backup: &PlainName,
    sink: &mut K,
) -> Status
    ensures counts { StoreCounts result (K.faults sink.old) (K.faults sink.new)
        (T.faults target.old) (T.faults target.new) }
    ensures answer { T.tells ≡ true
        → AnswersStore (T.holds target.old) (Restore backup.now volume.now) result }
    ensures left { T.tells ≡ true → LeavesAnswer (T.holds target.old) (Restore backup.now volume.now)
        (sink.new ≡ sink.old) (K.contents sink.old) (K.contents sink.new) result }
    ensures same { T.holds target.new ≡ T.holds target.old }
{
    let restored = restore(alloc, target, volume, backup, sink);
    end_of(alloc, volume, &restored)
}

/// Writes a line for each backup of a volume to the sink.
pub(crate) fn print_backups<T: Target, K: Sink>(
    alloc: Global,
    target: &mut T,
    volume: &PlainName,
    sink: &mut K,
) -> Status
    ensures counts { StoreCounts result (K.faults sink.old) (K.faults sink.new)
        (T.faults target.old) (T.faults target.new) }
    ensures answer { T.tells ≡ true
        → AnswersStore (T.holds target.old) (Backups volume.now) result }
    ensures left { T.tells ≡ true → LeavesAnswer (T.holds target.old) (Backups volume.now)
        (sink.new ≡ sink.old) (K.contents sink.old) (K.contents sink.new) result }
    ensures same { T.holds target.new ≡ T.holds target.old }
{
    let listed = list_backups(alloc, target, volume, sink);
    end_of(alloc, volume, &listed)
}

/// The status of what ended so.
fn end_of(alloc: Global, volume: &PlainName, done: &Result<(), RestoreError>) -> Status
    ensures { IsEndOf volume.now done.now result }
{
    match done {
        Ok(()) => Status::Done,
        Err(RestoreError::Refused(kind, object)) => match object.name(alloc, volume) {
            Ok(name) => Status::Refused {
                kind: *kind,
                name: ObjectName::of(name),
            },
            Err(_) => Status::NoMemory,
        },
        Err(RestoreError::TargetFault) => Status::TargetFault,
        Err(RestoreError::WriteFault) => Status::WriteFault,
        Err(RestoreError::NoMemory) => Status::NoMemory,
    }
}
