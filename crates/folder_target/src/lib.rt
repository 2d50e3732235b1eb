//! Where the backups of a real run are kept: a folder whose files are objects, each written whole or not at all.
#![tactic(auto)]

mod folder_target;
mod listing;
mod object_files;
mod object_names;

pub use folder_target::FolderTarget;
