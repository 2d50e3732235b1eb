//! The layers of one replica, and what each of them and the head read as.
#![tactic(auto)]

mod chain;
mod children;
mod finding;
pub mod laws;
mod layer;
mod layer_tree;
mod moving;
mod read_index;
mod reading;

pub use children::{Child, Children};
pub use layer::{Layer, LayerMeta};
pub use layer_tree::LayerTree;
