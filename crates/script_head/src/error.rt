ghost use Rattle.std.specs.Prelude.{◌≡◌};
ghost use Rattle.script_head.specs.Refusals.{IsRefusalOf};
ghost use Rattle.script_head.specs.declared.error.HeadError.TheVariants.{NoMemory};

use crate::member::Member;
use std::alloc::{AllocError, AllocFailed};
use thiserror::Error;

/// Why a line is not the first of a script.
#[derive(Clone, Copy, Debug, PartialEq, Eq, Error)]
pub enum HeadError {
    /// It is no JSON, or no object.
    #[error("no object of JSON")]
    Json,
    /// This is the first member that is missing or has another value than it may have.
    #[error("a member is missing or bad")]
    BadMember(Member),
    /// Memory ran out.
    #[error("out of memory")]
    NoMemory,
}

impl From<AllocError> for HeadError {
    ghost from_gives = { λ _ e. e ≡ NoMemory };

    fn from(_e: AllocError) -> HeadError {
        HeadError::NoMemory
    }
}

impl<T: Drop> From<AllocFailed<T>> for HeadError {
    ghost from_gives = { λ _ e. e ≡ NoMemory };

    fn from(_e: AllocFailed<T>) -> HeadError {
        HeadError::NoMemory
    }
}

impl From<serde_json::Error> for HeadError {
    ghost from_gives = { λ fault e. IsRefusalOf fault e };

    fn from(fault: serde_json::Error) -> HeadError {
        if fault.is_memory() {
            HeadError::NoMemory
        } else {
            HeadError::Json
        }
    }
}
