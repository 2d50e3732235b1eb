/// A run of blocks that an image has.
#[derive(Clone, Copy, Debug, PartialEq, Eq)]
pub struct BlockSpan {
    pub first: u32,
    pub count: u32,
}
