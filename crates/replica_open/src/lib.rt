//! A replica's folder is opened: it is the replica that it is, or the first thing that is wrong with it is told.
#![tactic(auto)]

mod image;
mod layers;
mod opening;
mod replica;

pub use folder_checks::{Damage, Flag};
pub use opening::{Opened, open};
pub use replica_node::ReplicaNode;
pub use replica_shelf::{HeadMeta, TimeText};
pub use shelf_traits::{Outer, OuterError, Shelves};
pub use vol_units::VolumeSize;
