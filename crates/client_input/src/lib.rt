//! What a client sends and is sent: its input, read piece by piece and fed to a reader of frames, and the frames that reply.
//! What an input is, and that it ends one way.
#![tactic(auto)]

mod feeding;
pub mod laws;
mod replies;

pub use feeding::{Input, feed_more};
pub use replies::{append_head, append_refusal, append_reply};
