ghost use Rattle.std.specs.Prelude.{◌≡◌, string_bytes, IfOk};
ghost use Rattle.backup_restore.specs.Errors.{error_of_outer, name_of};
ghost use Rattle.backup_restore.specs.declared.error.RestoreError.TheVariants.{NoMemory};

use backup_config::{Checksum, PlainName};
use backup_units::{block_name, cfg_name, volume_name};
use outer_traits::OuterError;
use std::alloc::{AllocError, Global};
use thiserror::Error;

/// What is wrong with an object.
#[derive(Clone, Copy, Debug, PartialEq, Eq)]
pub enum Refusal {
    /// There is no such object.
    Missing,
    /// It is no block of its checksum.
    Damaged,
    /// It is no cfg.
    Syntax,
    /// It is the cfg of a backup that is compressed.
    Compressed,
    /// It is the cfg of a volume that stands on a backing image.
    Backing,
}

/// An object of a volume's backups.
#[derive(Clone, Copy, Debug)]
pub enum StoredObject {
    /// The cfg of that backup.
    BackupCfg(PlainName),
    VolumeCfg,
    /// The block of that checksum.
    Block(Checksum),
}

/// Why a backup was not restored, or a volume's backups were not listed.
#[derive(Clone, Copy, Debug, Error)]
pub enum RestoreError {
    /// An object of the backup is not as it has to be.
    #[error("an object of the backup is refused")]
    Refused(Refusal, StoredObject),
    /// The target failed, and its count of faults shows it.
    #[error("the target failed")]
    TargetFault,
    /// The sink failed, and its count of faults shows it.
    #[error("the sink failed")]
    WriteFault,
    /// Memory ran out.
    #[error("out of memory")]
    NoMemory,
}

impl StoredObject {
    /// The name of the object among those of the volume.
    pub fn name(&self, alloc: Global, volume: &PlainName) -> Result<String, AllocError>
        ensures { IfOk result (λ name. string_bytes name ≡ name_of volume.now self.now) }
    {
        match self {
            StoredObject::BackupCfg(backup) => cfg_name(alloc, volume, backup),
            StoredObject::VolumeCfg => volume_name(alloc, volume),
            StoredObject::Block(checksum) => block_name(alloc, volume, checksum),
        }
    }
}

impl From<OuterError> for RestoreError {
    ghost from_gives = { λ fault e. e ≡ error_of_outer fault };

    fn from(fault: OuterError) -> RestoreError {
        match fault {
            OuterError::Failed => RestoreError::WriteFault,
            OuterError::NoMemory => RestoreError::NoMemory,
        }
    }
}

impl From<AllocError> for RestoreError {
    ghost from_gives = { λ _ e. e ≡ NoMemory };

    fn from(_e: AllocError) -> RestoreError {
        RestoreError::NoMemory
    }
}
