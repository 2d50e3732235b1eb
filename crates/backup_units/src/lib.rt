//! What all crates of backups speak in: checksums, the names of a store's objects, pages, and the disk that a list is.
#![tactic(auto)]

mod checksum;
mod names;
mod page;

pub use checksum::Checksum;
pub use names::{block_name, cfg_name, cfg_prefix, volume_name};
pub use page::{PAGE_LENGTH, is_zeros};
