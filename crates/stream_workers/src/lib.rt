//! The streams of a script side by side on one World: a worker for each, in a thread of its own.
#![tactic(auto)]

mod gated;
mod lines;
mod nowhere;
mod serving;
mod task;
mod tasks;
mod which;

pub use outer_traits::{Gate, Point, Wiring};
pub use script_text::Script;
pub use serving::serve;
pub use stream_turns::{ServedStreams, World};
