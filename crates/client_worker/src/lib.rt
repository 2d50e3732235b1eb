//! One stream's worker: it takes the stream's calls one after another, and carries each to the replicas.
#![tactic(auto)]

mod asks;
mod carrier;
mod channel;
mod ends;
mod frames;
pub mod laws;
mod opened;
mod pass;
mod rooms;
mod serve;
mod stream;
mod worker;

pub use channel::{Channel, carry, next_exchange};
pub use frames::put_header;
pub use outer_traits::Line;
pub use rooms::Rooms;
pub use script_text::Frames;
pub use stream_steps::{
    Admit, BlockRange, Blocks, Call, ClientSteps, Enrolled, Job, Mode, NotThis, TicketNumber,
};
pub use worker::Worker;
