/// A member of a script's first line.
#[derive(Clone, Copy, Debug, PartialEq, Eq)]
pub enum Member {
    Volume,
    Size,
    Replicas,
    Open,
    Save,
    Now,
    Streams,
    Lines,
}
