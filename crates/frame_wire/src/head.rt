/// The fields of a frame's header.
#[derive(Clone, Copy, Debug, PartialEq, Eq)]
pub struct Head {
    /// The number that ties a reply to its request.
    pub seq: u32,
    /// What the frame is: a read, a write, a reply and so on.
    pub kind: u32,
    /// Where in the volume, in bytes.
    pub offset: i64,
    /// How many bytes the frame asks for, or tells of.
    pub size: u32,
    /// How many bytes of data follow the header.
    pub len: u32,
}
