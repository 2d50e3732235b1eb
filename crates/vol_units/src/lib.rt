//! The sizes, block ranges, names and texts of time that every crate of the volume speaks in, each checked once where it is made.
#![tactic(auto)]

mod chars;
mod error;
mod layer_name;
mod limits;
mod page_ref;
mod place;
mod plain_name;
mod range;
mod size;
mod snap_name;
mod time_text;

pub use error::{BadName, BadSize};
pub use layer_name::LayerName;
pub use limits::{LONGEST_CALL, MOST_LAYERS};
pub use page_ref::PageRef;
pub use place::place_within;
pub use plain_name::PlainName;
pub use range::BlockRange;
pub use size::{BLOCK_BYTES, LARGEST_SIZE, PAGE_BYTES, VolumeSize};
pub use snap_name::SnapName;
pub use time_text::TimeText;
