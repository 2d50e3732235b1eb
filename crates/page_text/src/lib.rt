//! The text of a page of a layer, as a line carries it: which blocks the layer has there, and their bytes.
#![tactic(auto)]

pub mod laws;
mod text;

pub use sparse_image::Page;
pub use text::{LONGEST_TEXT, append_text};
pub use vol_units::LayerName;
