//! Serves one replica to a client that sends frames and waits for replies, over any source and sink.
#![tactic(auto)]

mod answer;
mod error;
mod serve;
mod volume_bytes;

pub use error::ServeError;
pub use serve::serve_replica;
