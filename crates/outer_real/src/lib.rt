//! What a run outside of tests has: standard input and output and folders, each counting its own faults, and a gate
//! that is open.
#![tactic(auto)]

mod folder_files;
mod folder_paths;
mod folder_shelves;
mod gate;
mod open_file;
mod sink;
mod source;

pub use folder_shelves::FolderShelves;
pub use gate::OpenGate;
pub use sink::StdSink;
pub use source::StdSource;
