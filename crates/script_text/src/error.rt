ghost use Rattle.std.specs.Prelude.{◌≡◌};
ghost use Rattle.script_text.specs.Refusals.{line_refusal};
ghost use Rattle.script_text.specs.declared.error.ScriptError.TheVariants.{NoMemory};

use crate::what::What;
use script_head::HeadError;
use std::alloc::{AllocError, AllocFailed};
use thiserror::Error;

/// Why an input is not read as a script.
#[derive(Clone, Copy, Debug, PartialEq, Eq, Error)]
pub enum ScriptError {
    /// It is none: the place of its first fault, and what that is.
    #[error("no script: byte {place}")]
    Bad { place: u64, what: What },
    /// Memory ran out.
    #[error("out of memory")]
    NoMemory,
}

impl From<HeadError> for ScriptError {
    ghost from_gives = { λ fault e. e ≡ line_refusal fault };

    fn from(fault: HeadError) -> ScriptError {
        let what = match fault {
            HeadError::Json => What::Json,
            HeadError::BadMember(member) => What::Member(member),
            HeadError::NoMemory => return ScriptError::NoMemory,
        };
        ScriptError::Bad { place: 0, what }
    }
}

impl From<AllocError> for ScriptError {
    ghost from_gives = { λ _ e. e ≡ NoMemory };

    fn from(_e: AllocError) -> ScriptError {
        ScriptError::NoMemory
    }
}

impl<T: Drop> From<AllocFailed<T>> for ScriptError {
    ghost from_gives = { λ _ e. e ≡ NoMemory };

    fn from(_e: AllocFailed<T>) -> ScriptError {
        ScriptError::NoMemory
    }
}
