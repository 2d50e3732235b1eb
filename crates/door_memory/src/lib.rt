//! Doors in memory, for tests: they let in who was expected, fail at the calls that they were told, and keep each session
//! that was taken back.
#![tactic(auto)]

mod door_source;
mod mem_doors;
mod no_fault_doors;
mod taken_back;
mod visitor;

pub use door_source::DoorSource;
pub use mem_doors::MemDoors;
pub use no_fault_doors::NoFaultDoors;
pub use visitor::Visitor;
