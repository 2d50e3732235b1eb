//! A replica's folder, each file of which is looked at by itself: is it clean, and are all good?
#![tactic(auto)]

mod checking;
mod file;
mod images;
mod listing;
mod maps;
mod metas;
mod parts;

pub use checking::check_folder;
pub use images::other_length;
pub use parts::{Damage, Flag, FolderCheck, FolderParts, ImageParts};
pub use shelf_traits::{Outer, OuterError, Shelves};
pub use vol_units::VolumeSize;
