ghost use Rattle.std.specs.Prelude.{◌≡◌};
ghost use Rattle.outer_traits.specs.declared.error.OuterError.TheVariants as outer_error;

use std::alloc::{AllocError, AllocFailed};

/// The outside failed, and its count of faults shows it.
#[derive(Clone, Copy, Debug, PartialEq, Eq)]
pub struct Failed;

/// Why a call to the outside gave no answer.
#[derive(Clone, Copy, Debug, PartialEq, Eq)]
pub enum OuterError {
    /// The outside failed, and its count of faults shows it.
    Failed,
    /// Memory ran out. The object is left as a failure leaves it, and its count stands.
    NoMemory,
}

/// What a call to the outside answers that may run out of memory.
pub type Outer<T> = Result<T, OuterError>;

impl From<Failed> for OuterError {
    ghost from_gives = { λ _ e. e ≡ outer_error.Failed };

    fn from(_e: Failed) -> OuterError {
        OuterError::Failed
    }
}

impl From<AllocError> for OuterError {
    ghost from_gives = { λ _ e. e ≡ outer_error.NoMemory };

    fn from(_e: AllocError) -> OuterError {
        OuterError::NoMemory
    }
}

impl<T: Drop> From<AllocFailed<T>> for OuterError {
    ghost from_gives = { λ _ e. e ≡ outer_error.NoMemory };

    fn from(_e: AllocFailed<T>) -> OuterError {
        OuterError::from(AllocError)
    }
}
