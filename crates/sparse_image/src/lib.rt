//! The blocks that one layer has, in pages that are made only where a block is.
#![tactic(auto)]

mod block;
mod blocks;
mod image;
mod page;
mod place;

pub use block::{BLOCK_BYTES, Block, PAGE_BLOCKS};
pub use blocks::Blocks;
pub use image::Image;
pub use page::Page;
pub use place::Place;
