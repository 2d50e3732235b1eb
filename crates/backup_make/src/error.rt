ghost use Rattle.std.specs.Prelude.{◌≡◌};
ghost use Rattle.backup_make.specs.Making.{error_of_store, error_of_outer, error_of_give};
ghost use Rattle.backup_make.specs.declared.error.MakeError.TheVariants as make_error;

use crate::giver::GiveError;
use backup_units::Checksum;
use block_store::StoreError;
use outer_traits::OuterError;
use std::alloc::AllocError;
use thiserror::Error;

/// Why no backup was made.
#[derive(Clone, Copy, Debug, PartialEq, Eq, Error)]
pub enum MakeError {
    /// The target has that backup's cfg.
    #[error("the backup exists")]
    Exists,
    /// No replica is left to be read.
    #[error("no replica is left")]
    NoReplica,
    /// The target holds another block of a page's checksum.
    #[error("another block has that checksum")]
    BlockDiffers(Checksum),
    /// The target failed, and its count of faults shows it.
    #[error("the target failed")]
    TargetFault,
    /// Memory ran out.
    #[error("out of memory")]
    NoMemory,
}

impl From<StoreError> for MakeError {
    ghost from_gives = { λ fault e. e ≡ error_of_store fault };

    fn from(fault: StoreError) -> MakeError {
        match fault {
            StoreError::BlockDiffers(checksum) => MakeError::BlockDiffers(checksum),
            StoreError::TargetFault => MakeError::TargetFault,
            StoreError::NoMemory => MakeError::NoMemory,
        }
    }
}

impl From<OuterError> for MakeError {
    ghost from_gives = { λ fault e. e ≡ error_of_outer fault };

    fn from(fault: OuterError) -> MakeError {
        match fault {
            OuterError::Failed => MakeError::TargetFault,
            OuterError::NoMemory => MakeError::NoMemory,
        }
    }
}

impl From<GiveError> for MakeError {
    ghost from_gives = { λ fault e. e ≡ error_of_give fault };

    fn from(fault: GiveError) -> MakeError {
        match fault {
            GiveError::NoReplica => MakeError::NoReplica,
            GiveError::NoMemory => MakeError::NoMemory,
        }
    }
}

impl From<AllocError> for MakeError {
    ghost from_gives = { λ _ e. e ≡ make_error.NoMemory };

    fn from(_e: AllocError) -> MakeError {
        MakeError::NoMemory
    }
}
