//! Who waits for a desk. It is for speed alone: no contract tells of it.
use std::sync::atomic::{AtomicBool, AtomicU64, Ordering};

/// How many look whether the desk is free, how many sleep, and whether one of these was woken and is not up yet. A
/// sleeper has to be up where nobody looks; where somebody does, to wake another would only have the desk handed over.
#[derive(Drop)]
pub(crate) struct Waiters {
    looking: AtomicU64,
    asleep: AtomicU64,
    is_woken: AtomicBool,
}

impl Waiters {
    pub(crate) fn new() -> Waiters {
        Waiters {
            looking: AtomicU64::new(0),
            asleep: AtomicU64::new(0),
            is_woken: AtomicBool::new(false),
        }
    }

    /// One found the desk taken, and looks on.
    pub(crate) fn begin_to_look(&self) {
        self.looking.fetch_add(1, Ordering::SeqCst);
    }

    /// One who looked has the desk, or is counted as a sleeper.
    pub(crate) fn end_to_look(&self) {
        self.looking.fetch_sub(1, Ordering::SeqCst);
    }

    /// One who looked goes to sleep. It is counted as a sleeper first, so that whoever leaves the desk counts it.
    pub(crate) fn lie_down(&self) {
        self.asleep.fetch_add(1, Ordering::SeqCst);
        self.end_to_look();
    }

    /// One who slept looks again, by whatever it was woken.
    pub(crate) fn get_up(&self) {
        self.begin_to_look();
        self.asleep.fetch_sub(1, Ordering::SeqCst);
        self.is_woken.store(false, Ordering::SeqCst);
    }

    /// Whether to wake one, for whoever leaves the desk: some sleep, nobody looks, and none is woken yet.
    pub(crate) fn must_wake(&self) -> bool {
        self.asleep.load(Ordering::SeqCst) > 0
            && self.looking.load(Ordering::SeqCst) == 0
            && !self.is_woken.swap(true, Ordering::SeqCst)
    }
}
