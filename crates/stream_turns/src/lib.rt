//! The streams of a script on one World, one stream after another, in the order of their numbers.
#![tactic(auto)]

mod lines;
mod serving;
mod stream;

pub use outer_traits::Wiring;
pub use script_text::{Heads, Script, Sequence};
pub use serving::{ServedStreams, blank_world, heads_in, serve};
pub use world_holder::World;
