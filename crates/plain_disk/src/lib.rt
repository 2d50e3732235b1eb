//! One plain disk that answers calls as the definitions say, slowly and with whole copies for snapshots.
#![tactic(auto)]

mod commands;
mod copies;
mod disk;
mod marks;
mod snapshots;

pub use disk::PlainDisk;
pub use volume_model::{
    Bytes, Call, Command, FoldOrDrop, LayerName, Mark, Mode, Refusal, Reply, Sequence, SnapName,
};
