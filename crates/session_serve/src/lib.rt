//! A session: calls to the engine from a thread of one's own, one after another, each answered by the time it returns.
#![tactic(auto)]

mod copy;
pub mod laws;
mod reply;
mod serve;
mod session;

pub use client_worker::{Channel, Line};
pub use session::Session;
pub use volume_model::{Call, Reply};
pub use world_holder::{Desk, Seat, WorldOnDesk};
