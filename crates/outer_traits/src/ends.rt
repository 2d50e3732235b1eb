/// Between whom a line is: the worker that sends on it, and the replica that it leads to.
#[derive(Clone, Copy, Debug, PartialEq, Eq)]
pub struct Ends {
    pub worker: u8,
    pub replica: u8,
}
