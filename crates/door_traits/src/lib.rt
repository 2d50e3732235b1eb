//! Where sessions come from: doors that are opened at an address, let one session after another in, and take each back
//! when it has ended. How all sessions of a run are let in first, and are taken back.
#![tactic(auto)]

mod client;
mod doors;
mod sessions;

pub use client::Client;
pub use doors::Doors;
pub use outer_traits::{Failed, Outer, OuterError, Sink, Source};
pub use sessions::{accept_all, take_back_all};
