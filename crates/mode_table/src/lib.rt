//! The mode of each replica of a volume, in a table that takes no memory.
#![tactic(auto)]

mod table;

pub use table::{MOST_REPLICAS, ModeTable};
pub use volume_model::{Mark, Mode};
