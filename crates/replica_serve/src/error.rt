ghost use Rattle.std.specs.Prelude.{◌≡◌};
ghost use Rattle.replica_serve.specs.declared.error.ServeError.TheVariants.{NoMemory};

use std::alloc::AllocError;
use thiserror::Error;

/// Why a replica was not served to the end of its input.
#[derive(Clone, Copy, Debug, PartialEq, Eq, Error)]
pub enum ServeError {
    /// The source failed.
    #[error("read fault")]
    ReadFault,
    /// The sink failed.
    #[error("write fault")]
    WriteFault,
    /// The input goes on with no whole frame at that place, counted modulo 2^64.
    #[error("no frame at byte {0}")]
    Frame(u64),
    /// Memory ran out.
    #[error("out of memory")]
    NoMemory,
}

impl From<AllocError> for ServeError {
    ghost from_gives = { λ _ e. e ≡ NoMemory };

    fn from(_e: AllocError) -> ServeError {
        ServeError::NoMemory
    }
}
