use thiserror::Error;

/// The number is no size of a volume.
#[derive(Clone, Copy, Debug, PartialEq, Eq, Error)]
#[error("no size of a volume")]
pub struct BadSize;

/// The bytes are no name of the kind that was asked for.
#[derive(Clone, Copy, Debug, PartialEq, Eq, Error)]
#[error("no such name")]
pub struct BadName;
