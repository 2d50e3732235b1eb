//! Which pages of a layer's copy the layers of its chain have blocks of, above a base.
#![tactic(auto)]

mod chain;
mod pages;

pub use chain::is_over;
pub use pages::pages_above;
pub use replica_node::ReplicaNode;
pub use vol_units::LayerName;
