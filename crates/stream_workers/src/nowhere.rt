//! A target for streams without backups.

use std::alloc::Global;
use target_traits::{Outer, Target};

/// A target that keeps nothing and tells nothing. Streams without backups get it, and ask nothing of it.
#[derive(Drop)]
pub(crate) struct Nowhere {
    pub(crate) alloc: Global,
}

impl Target for Nowhere {
    ghost use Rattle.std.specs.Prelude.{false, None};

    ghost tells = { false };

    ghost holds = { λ t name. None };

    ghost faults = { λ t. 0 };

    fn get(&mut self, _name: &str, _most: usize) -> Outer<Option<Vec<u8>>> {
        Ok(None)
    }

    fn put(&mut self, _name: &str, _bytes: &[u8]) -> Outer<()> {
        Ok(())
    }

    fn list(&mut self, _prefix: &str) -> Outer<Vec<String>> {
        Ok(Vec::new(self.alloc))
    }

    fn remove(&mut self, _name: &str) -> Outer<()> {
        Ok(())
    }
}
