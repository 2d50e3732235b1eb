//! The frames of a stream: what each asks, and how they are read from pieces of bytes.
#![tactic(auto)]

mod asked;
mod frame;
pub mod laws;
mod reader;

pub use asked::{Asked, call_of, of_frame};
pub use frame::{CLOSE, ERROR, Frame, PING, READ, RESPONSE, WRITE};
pub use frame_wire::{Decoded, Head};
pub use reader::{FrameReader, Next};
pub use volume_model::{Bytes, Call};
