ghost use Rattle.std.specs.Prelude.{None};

use chain_meta::is_image;
use shelf_memory::NoFaultShelves;
use shelf_traits::{Outer, Shelves};
use std::alloc::Global;

/// Shelves whose images have no block and take no room: each is as long as the volume. They tell nothing.
#[derive(Drop)]
pub struct HollowShelves {
    files: NoFaultShelves,
}

impl HollowShelves {
    pub fn new(alloc: Global) -> Self {
        HollowShelves {
            files: NoFaultShelves::new(alloc),
        }
    }
}

impl Shelves for HollowShelves {
    ghost holds = { λ _. None };

    ghost faults = { λ _. 0 };

    ghost failed_at = { λ _. None };

    fn files(&mut self, shelf: u8) -> Outer<Vec<String>> {
        self.files.files(shelf)
    }

    fn len(&mut self, shelf: u8, file: &str) -> Outer<Option<u64>> {
        match self.files.len(shelf, file)? {
            Some(_) if is_image(file.as_bytes()) => Ok(Some(2_097_152)),
            len => Ok(len),
        }
    }

    fn read_at(&mut self, shelf: u8, file: &str, at: u64, into: &mut [u8]) -> Outer<usize> {
        self.files.read_at(shelf, file, at, into)
    }

    fn write_at(&mut self, shelf: u8, file: &str, at: u64, bytes: &[u8]) -> Outer<()> {
        self.files.write_at(shelf, file, at, bytes)
    }

    fn set_len(&mut self, shelf: u8, file: &str, _len: u64) -> Outer<()> {
        self.files.set_len(shelf, file, 0)
    }

    fn remove(&mut self, shelf: u8, file: &str) -> Outer<()> {
        self.files.remove(shelf, file)
    }

    fn sync(&mut self, shelf: u8) -> Outer<()> {
        self.files.sync(shelf)
    }
}
