//! What a seat knows. These types are for proofs alone: no value of them is made but `Start`'s.
use std::collections::LinkedList;
use std::snapshot::Snapshot;

/// Whether a ticket is out with a seat: its number, counted from the first, and whether the holder waits, has the state,
/// or has put it back.
pub enum Stage {
    Idle,
    Waits(u64),
    Holds(u64),
    Back(u64),
}

/// What a seat knows that was not joined into another.
pub struct Known<S> {
    /// None for the first seat.
    pub number: Option<u64>,
    /// The state as the seat last saw it.
    pub last: S,
    pub stage: Stage,
    /// Of the first seat: how many seats were split off it.
    pub made: u64,
    /// Of the first seat: each number that was joined, with the state as that seat last saw it, the newest first.
    pub joined: LinkedList<(u64, S)>,
}

/// A seat that was joined into another is spent. Else it knows something, and was told of so long a journal.
pub enum View<S> {
    Spent,
    Knows(Known<S>, u64),
}

/// The state that a desk was made with, and how many seats may be split off the first.
#[derive(Drop)]
pub struct Start<S> {
    pub state: Snapshot<S>,
    pub seats: u64,
}
