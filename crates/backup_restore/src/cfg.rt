ghost use Rattle.std.specs.Prelude.{◌≡◌, ℕ, true, false, Some, IfOk, IfErr};
ghost use Rattle.backup_units.specs.Faults.{HasFault};
ghost use Rattle.backup_units.specs.Names.{volume_name};
ghost use Rattle.backup_config.specs.BackupCfgs.{SaysBackup};
ghost use Rattle.backup_restore.specs.Errors.{name_of, error_of_target, is_target_fault, is_write_fault};
ghost use Rattle.backup_restore.specs.ReadCfg.{AnswersCfg, AnswersSize, IsGot, IsNotThere, error_of_cfg};

use crate::error::{Refusal, RestoreError, StoredObject};
use backup_config::{BackupCfg, CfgError, CfgMember, LONGEST_CFG, VolumeCfg};
use outer_traits::OuterError;
use std::alloc::Global;
use target_traits::Target;
use vol_units::PlainName;

/// The cfg of a backup. Where it lacks the size of the disk and is right in all else, the volume's cfg is read for it.
pub fn read_cfg<T: Target>(
    alloc: Global,
    target: &mut T,
    volume: &PlainName,
    backup: &PlainName,
) -> Result<BackupCfg, RestoreError>
    ensures answer { T.tells ≡ true → AnswersCfg (T.holds target.old) volume.now backup.now result }
    ensures same { T.holds target.new ≡ T.holds target.old }
    ensures cause { HasFault is_target_fault (T.faults target.old) (T.faults target.new) result }
    ensures no_write { IfErr result (λ e. is_write_fault e ≡ false) }
{
    let bytes = get_cfg(alloc, target, volume, &StoredObject::BackupCfg(*backup))?;
    match BackupCfg::read(alloc, &bytes, volume, backup, None) {
        Ok(cfg) => Ok(cfg),
        Err(CfgError::Missing(CfgMember::DiskSize)) => {
            let size = volume_size(alloc, target, volume)?;
            match BackupCfg::read(alloc, &bytes, volume, backup, Some(size)) {
                Ok(cfg) => Ok(cfg),
                Err(e) => Err(error_of_cfg(StoredObject::BackupCfg(*backup), e)),
            }
        }
        Err(e) => Err(error_of_cfg(StoredObject::BackupCfg(*backup), e)),
    }
}

/// The size that the volume's cfg tells.
fn volume_size<T: Target>(
    alloc: Global,
    target: &mut T,
    volume: &PlainName,
) -> Result<u64, RestoreError>
    ensures answer { T.tells ≡ true → AnswersSize (T.holds target.old (volume_name volume.now)) volume.now result }
    ensures same { T.holds target.new ≡ T.holds target.old }
    ensures cause { HasFault is_target_fault (T.faults target.old) (T.faults target.new) result }
    ensures no_write { IfErr result (λ e. is_write_fault e ≡ false) }
{
    let bytes = get_cfg(alloc, target, volume, &StoredObject::VolumeCfg)?;
    match VolumeCfg::read(alloc, &bytes, volume) {
        Ok(cfg) => Ok(cfg.size.bytes()),
        Err(e) => Err(error_of_cfg(StoredObject::VolumeCfg, e)),
    }
}

/// The bytes of an object, and one more than a cfg may have of an object that is longer.
fn get_cfg<T: Target>(
    alloc: Global,
    target: &mut T,
    volume: &PlainName,
    object: &StoredObject,
) -> Result<Vec<u8>, RestoreError>
    ensures bytes { T.tells ≡ true → IfOk result (λ got.
        IsGot (T.holds target.old (name_of volume.now object.now)) got.items) }
    ensures refused { T.tells ≡ true
        → IfErr result (IsNotThere (T.holds target.old (name_of volume.now object.now)) object.now) }
    ensures same { T.holds target.new ≡ T.holds target.old }
    ensures cause { HasFault is_target_fault (T.faults target.old) (T.faults target.new) result }
    ensures no_write { IfErr result (λ e. is_write_fault e ≡ false) }
{
    let name = object.name(alloc, volume)?;
    match target.get(&name, LONGEST_CFG + 1) {
        Err(fault) => Err(error_of_target(fault)),
        Ok(None) => Err(RestoreError::Refused(Refusal::Missing, *object)),
        Ok(Some(bytes)) => Ok(bytes),
    }
}

pub(crate) fn error_of_target(fault: OuterError) -> RestoreError
    ensures { result ≡ error_of_target fault }
{
    match fault {
        OuterError::Failed => RestoreError::TargetFault,
        OuterError::NoMemory => RestoreError::NoMemory,
    }
}

fn error_of_cfg(object: StoredObject, refusal: CfgError) -> RestoreError
    ensures { result ≡ error_of_cfg object refusal }
{
    match refusal {
        CfgError::Syntax | CfgError::Missing(_) => RestoreError::Refused(Refusal::Syntax, object),
        CfgError::Compressed => RestoreError::Refused(Refusal::Compressed, object),
        CfgError::Backing => RestoreError::Refused(Refusal::Backing, object),
        CfgError::NoMemory => RestoreError::NoMemory,
    }
}
