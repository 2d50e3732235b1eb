//! The layers of a folder: which snapshots may be the layers of one replica, and the order in which they come.
#![tactic(auto)]

mod misfit;
mod order;
mod parents;
mod rings;
mod turns;

pub use folder_checks::ImageParts;
pub use misfit::{Misfit, first_misfit};
pub use order::{OrderedLayer, order_layers, parent_name};
