//! The folders of all replicas of a run are opened, and saved.
#![tactic(auto)]

mod beside;
mod heads;
pub mod laws;
mod opening;
mod reason;
mod saving;

pub use heads::OpenedHead;
pub use opening::{OpenedFolders, OpenedReplicas, open_replicas};
pub use reason::Reason;
pub use replica_compare::Difference;
pub use replica_node::ReplicaNode;
pub use replica_open::{Damage, Flag};
pub use replica_shelf::{HeadMeta, TimeText};
pub use saving::save_replicas;
pub use shelf_traits::{Outer, OuterError, Shelves};
pub use vol_units::VolumeSize;
pub use volume_model::Mode;
