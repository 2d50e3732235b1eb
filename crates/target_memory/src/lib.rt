//! Targets in memory, for tests: one fails at the calls that it was told, one never.
#![tactic(auto)]

mod memory_target;
mod no_fault_target;

pub use memory_target::MemoryTarget;
pub use no_fault_target::NoFaultTarget;
