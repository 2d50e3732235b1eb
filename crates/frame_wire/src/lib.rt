//! The frames that clients and replicas send, laid out as Longhorn's dataconn messages: a header of
//! 26 bytes, and its data.
#![tactic(auto)]

mod decoded;
mod head;
pub mod laws;
mod wire;

pub use decoded::Decoded;
pub use head::Head;
pub use wire::{HEADER_LENGTH, decode, encode_header};
