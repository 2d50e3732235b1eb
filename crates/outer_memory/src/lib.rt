//! Sources, sinks and lines in memory, for tests: some fail at the calls that they were told, some never.
#![tactic(auto)]

mod fault_plan;
mod kept_frames;
mod limited_sink;
mod memory_line;
mod memory_sink;
mod memory_source;
mod memory_wiring;
mod no_fault_line;
mod no_fault_sink;
mod no_fault_source;

pub use fault_plan::FaultPlan;
pub use kept_frames::{Frame, KeptFrames};
pub use limited_sink::LimitedSink;
pub use memory_line::{MemoryLine, Told};
pub use memory_sink::MemorySink;
pub use memory_source::MemorySource;
pub use memory_wiring::{LineAsk, MemoryWiring};
pub use no_fault_line::{NoFaultLine, NoFaultWiring};
pub use no_fault_sink::NoFaultSink;
pub use no_fault_source::NoFaultSource;
