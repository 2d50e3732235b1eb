//! The first difference of two replicas, and when two that have none are one volume.
#![tactic(auto)]

mod alike;
mod comparing;
mod holders;
pub mod laws;
mod readings;
mod shapes;
mod twins;

pub use comparing::{Difference, compare};
pub use replica_node::ReplicaNode;
pub use vol_units::LayerName;
