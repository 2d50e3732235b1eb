ghost use Rattle.std.specs.Prelude.{◌≡◌, true, OnOk, IfErr};
ghost use Rattle.backup_units.specs.Faults.{HasFault};
ghost use Rattle.backup_restore.specs.Errors.{is_refusal, is_target_fault, is_write_fault};
ghost use Rattle.backup_restore.specs.Restored.{AnswersRestore, WritesDisk, WritesSome};

use crate::blocks::restore_blocks;
use crate::cfg::read_cfg;
use crate::error::RestoreError;
use outer_traits::Sink;
use std::alloc::Global;
use target_traits::Target;
use vol_units::PlainName;

/// Writes the disk of a volume's backup to the sink. Its cfg is read first, and the volume's where the size of the disk
/// is missing in it, then each listed block is looked at, in rising offset, and only then is any written, each looked at again.
pub fn restore<T: Target, K: Sink>(
    alloc: Global,
    target: &mut T,
    volume: &PlainName,
    backup: &PlainName,
    sink: &mut K,
) -> Result<(), RestoreError>
    ensures whole { T.tells ≡ true → OnOk result
        (WritesDisk (T.holds target.old) volume.now backup.now (K.contents sink.old) (K.contents sink.new)) }

    // After any answer.
    ensures prefix { T.tells ≡ true
        → WritesSome (T.holds target.old) volume.now backup.now (K.contents sink.old) (K.contents sink.new) }

    // Nothing is written of a backup of which an object is refused.
    ensures unwritten { T.tells ≡ true → IfErr result (λ e. is_refusal e ≡ true → sink.new ≡ sink.old) }
    ensures answer { T.tells ≡ true → AnswersRestore (T.holds target.old) volume.now backup.now result }
    ensures same { T.holds target.new ≡ T.holds target.old }
    ensures cause { HasFault is_target_fault (T.faults target.old) (T.faults target.new) result }
    ensures write_cause { HasFault is_write_fault (K.faults sink.old) (K.faults sink.new) result }
{
    match read_cfg(alloc, target, volume, backup) {
        Ok(cfg) => restore_blocks(alloc, target, volume, cfg.list.blocks(), sink),
        Err(e) => Err(e),
    }
}
