//! The World of a run that begins with opened folders.
#![tactic(auto)]

pub mod laws;
mod names;
mod opening;

pub use opening::open_world;
pub use volume_core::World;
pub use volume_folders::{Reason, ReplicaNode, VolumeSize};
