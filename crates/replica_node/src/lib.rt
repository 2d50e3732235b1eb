//! One replica: its layers and its head, as the disks that they read as.
#![tactic(auto)]

mod fold;
mod images;
pub mod laws;
mod names;
mod node;
mod own;
mod purge;
mod reading;
mod swap;

pub use layer_chain::{LayerMeta, LayerTree};
pub use node::ReplicaNode;
pub use purge::take_out;
pub use snapshot_ops::Spare;
pub use sparse_image::{BLOCK_BYTES, Block, Blocks, PAGE_BLOCKS, Page};
pub use vol_units::{BlockRange, LayerName, VolumeSize};
pub use volume_model::FoldOrDrop;
