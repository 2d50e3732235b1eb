//! Folding the layers of one replica that are to be removed, and dropping those on which nothing stands.
#![tactic(auto)]

mod change;
pub mod laws;
mod next;

pub use change::{FoldPlaces, delete_leaf, fold_page, fold_places, replace};
pub use next::{next_fold, way_of};
pub use volume_model::FoldOrDrop;
