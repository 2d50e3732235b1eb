//! The files of a replica's folder, by their names.
#![tactic(auto)]

mod names;

pub use chain_meta::ImageName;
pub use names::{VOLUME_FILE, layer_image, map_file, meta_file};
