ghost use Rattle.std.specs.Prelude.{◌≡◌};
ghost use Rattle.chain_meta.specs.Answers.{IsRefusalOf};
ghost use Rattle.chain_meta.specs.declared.error.MetaError.TheVariants.{NoMemory};

use std::alloc::{AllocError, AllocFailed};
use thiserror::Error;

/// A member that has to be there.
#[derive(Clone, Copy, Debug, PartialEq, Eq)]
pub enum MetaMember {
    Name,
    Parent,
    Removed,
    Dirty,
    Rebuilding,
    Head,
    Size,
}

/// Why bytes are no metadata.
#[derive(Clone, Copy, Debug, PartialEq, Eq, Error)]
pub enum MetaError {
    /// They are no JSON, or no object, or a member is of another kind than it may be.
    #[error("no metadata")]
    Syntax,
    /// This is the first member that has to be there and is missing.
    #[error("a member is missing")]
    Missing(MetaMember),
    /// They name a backing file.
    #[error("a backing file is named")]
    Backing,
    /// Memory ran out.
    #[error("out of memory")]
    NoMemory,
}

impl From<AllocError> for MetaError {
    ghost from_gives = { λ _ e. e ≡ NoMemory };

    fn from(_e: AllocError) -> MetaError {
        MetaError::NoMemory
    }
}

impl<T: Drop> From<AllocFailed<T>> for MetaError {
    ghost from_gives = { λ _ e. e ≡ NoMemory };

    fn from(_e: AllocFailed<T>) -> MetaError {
        MetaError::NoMemory
    }
}

impl From<serde_json::Error> for MetaError {
    ghost from_gives = { λ fault e. IsRefusalOf fault e };

    fn from(fault: serde_json::Error) -> MetaError {
        if fault.is_memory() {
            MetaError::NoMemory
        } else {
            MetaError::Syntax
        }
    }
}
