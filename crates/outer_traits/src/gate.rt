/// Where a worker is on its way, as a gate is told.
#[derive(Clone, Copy, Debug, PartialEq, Eq)]
pub enum Point {
    /// A request is about to go to the replica of that number.
    BeforeCarry(u8),
    /// The carry to that replica is over, whether or not it came through.
    AfterCarry(u8),
    /// The worker was told to wait, and is about to ask again.
    Waiting,
    /// Its call of that index was answered.
    Ended(u64),
}

/// What the workers of a run pass on their way, outside of the lock. A test's gate may hold one there.
pub trait Gate {
    fn pass(&self, worker: u8, point: Point);
}
