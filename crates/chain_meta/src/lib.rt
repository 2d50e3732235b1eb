//! The metadata of a replica's folder, as JSON both ways: that of a layer and that of the volume.
#![tactic(auto)]

mod cut;
mod disk_meta;
mod error;
mod image_name;
mod members;
mod volume_meta;

pub use cut::before;
pub use disk_meta::DiskMeta;
pub use error::{MetaError, MetaMember};
pub use image_name::{ImageName, LARGEST_HEAD, is_image, snapshot_name};
pub use vol_units::TimeText;
pub use volume_meta::VolumeMeta;
