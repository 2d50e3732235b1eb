//! What threads wait for.

use std::sync::atomic::{AtomicU64, Ordering};
use std::thread;

/// How often one that waits looks before it goes on alone.
const LOOKS: u32 = 1_000_000_000;

/// Whether something has come to pass.
#[derive(Drop)]
pub(crate) struct Flag {
    raised: AtomicU64,
}

impl Flag {
    pub(crate) fn new() -> Flag {
        Flag {
            raised: AtomicU64::new(0),
        }
    }

    pub(crate) fn raise(&self) {
        self.raised.fetch_add(1, Ordering::SeqCst);
    }

    pub(crate) fn is_raised(&self) -> bool {
        self.raised.load(Ordering::SeqCst) != 0
    }

    /// Waits for it, and says whether it has come to pass.
    pub(crate) fn comes(&self) -> bool {
        for _ in 0..LOOKS {
            if self.is_raised() {
                return true;
            }
            thread::yield_now();
        }
        false
    }
}
