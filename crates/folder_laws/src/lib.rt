//! What follows from which replica a folder is.
#![tactic(auto)]

pub mod back;
pub mod dirty;
pub mod laws;
pub mod opens;

pub use replica_node::ReplicaNode;
pub use replica_open::Opened;
