use frame_wire::Head;
use volume_model::Bytes;

/// The type of a frame that reads, as dataconn numbers it.
pub const READ: u32 = 0;

/// The type of a frame that writes.
pub const WRITE: u32 = 1;

/// The type of a frame that answers a call.
pub const RESPONSE: u32 = 2;

/// The type of a frame that refuses a call.
pub const ERROR: u32 = 3;

/// The type of a frame that ends its stream.
pub const CLOSE: u32 = 5;

/// The type of a frame that asks for a sign of life.
pub const PING: u32 = 6;

/// A frame of a stream: its header and its data.
#[derive(Debug, Drop)]
pub struct Frame {
    pub head: Head,
    pub body: Bytes,
}
