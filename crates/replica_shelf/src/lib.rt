//! A replica's folder: a replica is saved to one.
#![tactic(auto)]

mod blocks;
mod clearing;
mod file;
mod head;
mod image;
mod map;
mod metas;
mod names;
mod parts;
mod saving;

pub use head::HeadMeta;
pub use replica_node::ReplicaNode;
pub use saving::{SaveMeta, save};
pub use shelf_traits::{Outer, OuterError, Shelves};
pub use vol_units::TimeText;
