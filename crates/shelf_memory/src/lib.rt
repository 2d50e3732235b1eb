//! Shelves in memory, for tests: some fail at the calls that they were told, some never.
#![tactic(auto)]

mod kept_file;
mod memory_shelves;
mod names;
mod no_fault_shelves;

pub use memory_shelves::{FailedAt, MemoryShelves};
pub use no_fault_shelves::NoFaultShelves;
