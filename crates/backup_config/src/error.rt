ghost use Rattle.std.specs.Prelude.{◌≡◌};
ghost use Rattle.backup_config.specs.Answers.{IsRefusalOf};
ghost use Rattle.backup_config.specs.declared.error.CfgError.TheVariants.{NoMemory};

use std::alloc::{AllocError, AllocFailed};
use thiserror::Error;

/// A member that has to be there.
#[derive(Clone, Copy, Debug, PartialEq, Eq)]
pub enum CfgMember {
    Name,
    VolumeName,
    SnapshotName,
    DiskSize,
    Size,
}

/// Why bytes are no cfg. Where several hold, the first one here is told.
#[derive(Clone, Copy, Debug, PartialEq, Eq, Error)]
pub enum CfgError {
    /// They are no JSON, no object, too long, or a member is of another kind than it may be.
    #[error("no cfg")]
    Syntax,
    /// This is the first member that has to be there and is missing. The size of the disk comes last, behind `Compressed`.
    #[error("a member is missing")]
    Missing(CfgMember),
    /// They don't say that the blocks are uncompressed.
    #[error("the blocks are compressed")]
    Compressed,
    /// They name a backing image.
    #[error("a backing image is named")]
    Backing,
    /// Memory ran out.
    #[error("out of memory")]
    NoMemory,
}

impl From<AllocError> for CfgError {
    ghost from_gives = { λ _ e. e ≡ NoMemory };

    fn from(_e: AllocError) -> CfgError {
        CfgError::NoMemory
    }
}

impl<T: Drop> From<AllocFailed<T>> for CfgError {
    ghost from_gives = { λ _ e. e ≡ NoMemory };

    fn from(_e: AllocFailed<T>) -> CfgError {
        CfgError::NoMemory
    }
}

impl From<serde_json::Error> for CfgError {
    ghost from_gives = { λ fault e. IsRefusalOf fault e };

    fn from(fault: serde_json::Error) -> CfgError {
        if fault.is_memory() {
            CfgError::NoMemory
        } else {
            CfgError::Syntax
        }
    }
}
