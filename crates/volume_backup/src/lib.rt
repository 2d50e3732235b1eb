//! What a backup reads of a World: a page of a snapshot's copy, and which pages it has to read.
#![tactic(auto)]

mod page;
mod pages;
mod told;

pub use backup_make::Pages;
pub use page::snap_page;
pub use pages::backup_pages;
pub use replica_node::LayerName;
pub use told::{is_calm, is_live};
pub use volume_core::{NotThis, World};
