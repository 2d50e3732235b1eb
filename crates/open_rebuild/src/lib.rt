//! What is true of a volume at every moment while one of its replicas is rebuilt, and what keeps it.
#![tactic(auto)]

mod frozen_layers;
mod listed_pages;
mod rebuilding;

pub use frozen_layers::FrozenLayers;
pub use listed_pages::ListedPages;
pub use rebuilding::Rebuilding;
pub use replica_node::{LayerName, ReplicaNode};
pub use vol_units::PageRef;
