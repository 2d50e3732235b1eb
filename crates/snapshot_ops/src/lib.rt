//! A snapshot, a revert and a mark on the layers of one replica.
#![tactic(auto)]

mod ops;
mod spare;

pub use ops::{mark, revert, snapshot};
pub use spare::Spare;
