ghost use Rattle.std.specs.Prelude.{◌≡◌};
ghost use Rattle.block_store.specs.Answers.{get_error_of, store_error_of};
ghost use Rattle.block_store.specs.declared.error.GetError.TheVariants as get_error;
ghost use Rattle.block_store.specs.declared.error.StoreError.TheVariants as store_error;

use backup_units::Checksum;
use outer_traits::OuterError;
use std::alloc::AllocError;
use thiserror::Error;

/// Why a block was not put.
#[derive(Clone, Copy, Debug, PartialEq, Eq, Error)]
pub enum StoreError {
    /// The target holds another block of that checksum.
    #[error("another block has that checksum")]
    BlockDiffers(Checksum),
    /// The target failed, and its count of faults shows it.
    #[error("the target failed")]
    TargetFault,
    /// Memory ran out.
    #[error("out of memory")]
    NoMemory,
}

/// Why no block came.
#[derive(Clone, Copy, Debug, PartialEq, Eq, Error)]
pub enum GetError {
    /// There is no such object.
    #[error("there is no such block")]
    Missing,
    /// The object is no block of that checksum.
    #[error("the block is damaged")]
    Damaged,
    /// The target failed, and its count of faults shows it.
    #[error("the target failed")]
    TargetFault,
    /// Memory ran out.
    #[error("out of memory")]
    NoMemory,
}

impl From<OuterError> for StoreError {
    ghost from_gives = { λ fault e. e ≡ store_error_of fault };

    fn from(fault: OuterError) -> StoreError {
        match fault {
            OuterError::Failed => StoreError::TargetFault,
            OuterError::NoMemory => StoreError::NoMemory,
        }
    }
}

impl From<AllocError> for StoreError {
    ghost from_gives = { λ _ e. e ≡ store_error.NoMemory };

    fn from(_e: AllocError) -> StoreError {
        StoreError::NoMemory
    }
}

impl From<OuterError> for GetError {
    ghost from_gives = { λ fault e. e ≡ get_error_of fault };

    fn from(fault: OuterError) -> GetError {
        match fault {
            OuterError::Failed => GetError::TargetFault,
            OuterError::NoMemory => GetError::NoMemory,
        }
    }
}

impl From<AllocError> for GetError {
    ghost from_gives = { λ _ e. e ≡ get_error.NoMemory };

    fn from(_e: AllocError) -> GetError {
        GetError::NoMemory
    }
}
