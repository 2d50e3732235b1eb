//! Maps: which blocks an image has, as a text with a line for each run of them, read in pieces however they are cut.
#![tactic(auto)]

mod digits;
mod error;
pub mod laws;
mod line;
mod reader;
mod span;
mod standing;
mod write;

pub use error::MapError;
pub use reader::{MapReader, read_map};
pub use span::BlockSpan;
pub use write::write_map;
